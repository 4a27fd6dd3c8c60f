//! The cell of a wormhole routing switch: its steps, and when each is possible.
#![tactic(auto)]

mod cell;
mod conditions;
mod input;
pub mod laws;
mod make;
mod part;
mod steps;

pub use cell::SwitchCell;
pub use input::Input;
