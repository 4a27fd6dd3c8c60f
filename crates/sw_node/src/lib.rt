//! The cell of a node: its steps, and when each is possible.
#![tactic(auto)]

mod came_out;
mod cell;
mod conditions;
mod make;
mod part;
mod reply;
mod sending;
mod steps;
mod undelivered;

pub use cell::NodeCell;
pub use part::PendingReply;
