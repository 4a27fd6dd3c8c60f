//! Steps as tables have them.

use std::alloc::{AllocError, Global};
use std::fmt::Display;
use std::io;
use sw_char::End;
use sw_machine::Step;
use sw_topo::Chan;

/// A step of a node, by the number of its flow, of its channel or of the node.
#[derive(Clone, Copy)]
pub(crate) enum Move<'c> {
    /// A packet of the flow begins, with this cargo and this end.
    Begin(u16, &'c [u8], End),
    Fct(u16),
    FctIn(u16),
    Emit(u16),
    Arrive(u16),
    Accept(u16),
}

impl Move<'_> {
    /// The step that it is.
    pub(crate) fn step(self, alloc: Global) -> Result<Step, AllocError> {
        Ok(match self {
            Move::Begin(flow, cargo, end) => Step::Begin {
                flow,
                cargo: Vec::from_slice(alloc, cargo)?,
                end,
            },
            Move::Fct(channel) => Step::Move(sw_machine::Move::Fct(Chan::new(channel))),
            Move::FctIn(channel) => Step::Move(sw_machine::Move::FctIn(Chan::new(channel))),
            Move::Emit(node) => Step::Move(sw_machine::Move::Emit(node)),
            Move::Arrive(channel) => Step::Move(sw_machine::Move::Arrive(Chan::new(channel))),
            Move::Accept(node) => Step::Move(sw_machine::Move::Accept(node)),
        })
    }
}

/// Prints whether a step was made that was tried, after what it is called.
pub(crate) fn show_made<F: Display + Drop>(
    rt: &HostRuntime,
    name: &str,
    made: Result<(), F>,
) -> io::Result<()> {
    match made {
        Ok(()) => println!(rt; "{name}made"),
        Err(fault) => println!(rt; "{name}{fault}"),
    }
}
