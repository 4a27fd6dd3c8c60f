//! A cell of a network, a node or a switch, and each of the machine's steps at it.
#![tactic(auto)]

mod cell;
mod fault;
pub mod node;
mod node_steps;
mod place;
mod step;
pub mod switch;
mod switch_steps;

pub use cell::{CellId, CellState};
pub use fault::NetFault;
pub use node_steps::step_node;
pub use place::cell_of;
pub use step::{made_or_not, step_cell};
pub use switch_steps::step_switch;
