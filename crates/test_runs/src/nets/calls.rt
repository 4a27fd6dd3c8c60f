//! Single calls of the core, over one link between A and B.

use crate::moves::{Move, show_made};
use crate::nets::show::{Detail, show_first, show_nodes};
use crate::nets::{Core, make, make_step};
use crate::numbers::show_numbers;
use std::alloc::Global;
use std::io;
use sw_char::End;
use sw_machine::Step;
use sw_topo::{Chan, LinkEnd};

/// The number of A's link end.
const END: u16 = 0;

/// What can be so.
#[derive(Clone, Copy)]
pub(crate) enum Asked {
    /// The node of this number can begin a packet.
    CanBegin(u16),
    /// An FCT can be sent on the channel of this number.
    CanSendFct(u16),
    /// A's link end makes a step, which is an FCT.
    SendsFct,
    /// No input asks for A's link end.
    NoneAsk,
}

/// A call, with what is printed before its answer and after it.
#[derive(Clone, Copy)]
pub(crate) enum Call {
    /// A step is tried, with what is printed before.
    Make(&'static str, Move<'static>),
    /// How many characters wait.
    Undelivered,
    /// How many channels and nodes there are.
    Sizes,
    /// Whether that is so.
    Ask(&'static str, Asked, &'static str),
    /// What came out at the nodes.
    Nodes,
    /// The first link end that can make a step.
    First,
    /// The numbers of A's link end.
    Numbers,
}

/// A packet of one byte begins.
const BEGIN: Call = Call::Make("begin AA: ", Move::Begin(0, &[0xAA], End::Eop));

/// No packet has no cargo, and only one of two waits at A. B lets A send, which A is told, and then the packet's byte and its end go from A
/// to B.
pub(crate) const PACKET: &[Call] = &[
    Call::Make("begin with no cargo: ", Move::Begin(0, &[], End::Eop)),
    Call::Undelivered,
    BEGIN,
    Call::Undelivered,
    BEGIN,
    Call::Undelivered,
    Call::Make("fct 0: ", Move::Fct(0)),
    Call::Make("fctin 0: ", Move::FctIn(0)),
    Call::Make("emit A: ", Move::Emit(0)),
    Call::Make("arrive 0: ", Move::Arrive(0)),
    Call::Make("accept B: ", Move::Accept(1)),
    Call::Make("emit A: ", Move::Emit(0)),
    Call::Make("arrive 0: ", Move::Arrive(0)),
    Call::Make("accept B: ", Move::Accept(1)),
    Call::Undelivered,
    Call::Nodes,
    Call::First,
];

/// A link end tells its numbers, and makes a step.
pub(crate) const LINK_END: &[Call] = &[
    Call::Numbers,
    Call::Sizes,
    Call::Ask("can begin A: ", Asked::CanBegin(0), "\n"),
    Call::Ask("possible fct 1: ", Asked::CanSendFct(1), ", "),
    Call::Ask("fct 2: ", Asked::CanSendFct(2), "\n"),
    Call::Ask("the link end sends an FCT: ", Asked::SendsFct, "\n"),
    Call::Numbers,
    Call::Ask("no input asks: ", Asked::NoneAsk, "\n"),
];

/// What is left where packets began as soon as they could.
pub(crate) const LEFT: &[Call] = &[Call::First, Call::Undelivered, Call::Nodes];

fn is_so(alloc: Global, net: &mut Core<'_>, asked: Asked) -> bool {
    match asked {
        Asked::CanBegin(node) => node < net.network().nodes() && net.can_begin(node),
        Asked::CanSendFct(channel) => net.is_possible(&Step::Move(sw_machine::Move::Fct(Chan::new(
            channel,
        )))),
        Asked::SendsFct => matches!(make_step(alloc, net, LinkEnd::new(END)), Some(true)),
        Asked::NoneAsk => net.asks(LinkEnd::new(END)).is_empty(),
    }
}

fn show_numbers_of(rt: &HostRuntime, net: &Core<'_>, end: LinkEnd) -> io::Result<()> {
    let numbers = if end.number() < net.network().channels() {
        Some(net.numbers(end))
    } else {
        None
    };
    rt.print("numbers").and(show_numbers(rt, numbers))
}

/// Prints what each answers.
pub(crate) fn show_calls(rt: &HostRuntime, net: &mut Core<'_>, calls: &[Call]) -> io::Result<()> {
    let mut shown = Ok(());
    for &call in calls {
        shown = shown.and(match call {
            Call::Make(name, tried) => show_made(rt, name, make(rt.alloc(), net, tried)),
            Call::Undelivered => println!(rt; "undelivered {}", net.undelivered()),
            Call::Sizes => println!(rt;
                "channels {}, nodes {}",
                net.network().channels(),
                net.network().nodes()
            ),
            Call::Ask(name, asked, end) => print!(rt;
                "{name}{}{end}",
                is_so(rt.alloc(), net, asked)
            ),
            Call::Nodes => show_nodes(rt, net, Detail::Packets),
            Call::First => show_first(rt, net),
            Call::Numbers => show_numbers_of(rt, net, LinkEnd::new(END)),
        });
    }
    shown
}
