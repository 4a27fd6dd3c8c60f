//! The machine of a network: states, steps and runs, and the laws over them.
//!
//! The machine's network of a network that a file declares, its steps as values, and the packets that its
//! flows declare.
#![tactic(auto)]

mod input;
pub mod laws;
pub mod model_laws;
mod packets;
mod reply;
mod step;

pub use input::InputState;
pub use packets::in_flow;
pub use reply::{left_bytes, reply_length};
pub use step::{Move, Step};
