//! The journal of a run: its history, and the cells that make its steps.
#![tactic(auto)]

mod asked;
mod cell;
mod cell_table;
mod choice;
mod fault;
mod journal;
pub mod laws;
mod opening;
mod renewal;
mod seats;
mod state;

pub use cell::Cell;
pub use fault::JournalFault;
pub use journal::Journal;
pub use sw_history::Record;
pub use sw_net::{Input, NodePart, Numbers, Part, PendingReply, PortPart};
