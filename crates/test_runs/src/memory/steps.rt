//! Steps of the core, and all that its cells have.
ghost use Rattle.sw_cell.specs.Places.{IsIn};

use crate::memory::targets::READ;
use crate::moves::Move;
use crate::nets::{Core, make};
use std::alloc::{AllocError, Global};
use sw_cell::CellId;
use sw_char::End;
use sw_config::Network;
use sw_net::declared_net;

/// The steps of two read commands, each so many times. A command goes over the first channel to the second node, after so many FCTs from
/// there.
const COMMANDS: &[(Move<'static>, u32)] = &[
    (Move::Begin(0, READ, End::Eop), 1),
    (Move::Fct(0), 3),
    (Move::FctIn(0), 3),
    (Move::Emit(0), 17),
    (Move::Arrive(0), 17),
    (Move::Accept(1), 17),
    (Move::Begin(0, READ, End::Eop), 1),
    (Move::Fct(0), 2),
    (Move::FctIn(0), 2),
    (Move::Emit(0), 17),
    (Move::Arrive(0), 17),
    (Move::Accept(1), 17),
];

fn add_part(
    alloc: Global,
    net: &Core<'_>,
    cell: CellId,
    text: &mut String,
) -> Result<(), AllocError>
    requires { IsIn net.now.declared cell }
{
    let part = net.part(alloc, cell)?;
    write!(text, "{part:?}\n")
}

/// Adds how many characters are undelivered, and all that each cell has.
///
/// # Errors
///
/// There is no memory for a part or for the text.
pub fn add_parts(alloc: Global, net: &Core<'_>, text: &mut String) -> Result<(), AllocError> {
    let mut added = write!(text, "undelivered {}\n", net.undelivered());
    for node in 0..net.network().nodes() {
        added = added.and(add_part(alloc, net, CellId::Node(node), text));
    }
    for switch in 0..net.network().switches() {
        added = added.and(add_part(alloc, net, CellId::Switch(switch), text));
    }
    added
}

/// The same as a text of its own.
///
/// # Errors
///
/// There is no memory for a part or for the text.
pub fn text_of(alloc: Global, net: &Core<'_>) -> Result<String, AllocError> {
    let mut text = String::new(alloc);
    match add_parts(alloc, net, &mut text) {
        Ok(()) => Ok(text),
        Err(refused) => Err(refused),
    }
}

/// Makes the step, at once or again after a refusal that changed nothing; else that is told.
fn make_again(
    alloc: Global,
    net: &mut Core<'_>,
    tried: Move<'_>,
    text: &mut String,
) -> Result<(), AllocError> {
    let before = text_of(alloc, net)?;
    if make(alloc, net, tried).is_ok()
        || (text_of(alloc, net)? == before && make(alloc, net, tried).is_ok())
    {
        return Ok(());
    }
    write!(text, "a step was not made\n")
}

/// Adds all that the network comes to by the steps of two commands.
///
/// # Errors
///
/// There is no memory for the core, for what a step stores or for the text.
pub fn add_commands(alloc: Global, network: &Network, text: &mut String) -> Result<(), AllocError> {
    let mut net = declared_net(alloc, network)?;
    let mut added = Ok(());
    for &(tried, times) in COMMANDS {
        for _ in 0..times {
            added = added.and(make_again(alloc, &mut net, tried, text));
        }
    }
    added = added.and(add_parts(alloc, &net, text));
    net.discard();
    added
}
