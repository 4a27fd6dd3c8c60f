//! A network that makes the machine's steps: its cells, and what lies between them.
#![tactic(auto)]

mod asked;
mod asking;
mod changed_ends;
mod choice;
mod counted_steps;
mod declared;
mod delivery;
mod make;
mod net;
mod numbers;
mod part;
mod possible;
mod step;
mod step_of;
mod unanswered;

pub use declared::{SwitchRoutes, declared_net};
pub use net::Net;
pub use numbers::Numbers;
pub use part::{NodePart, Part, PortPart};
pub use sw_arb::Policy;
pub use sw_cell::{CellId, CellState, NetFault, step_cell};
pub use sw_char::Packet;
pub use sw_config::Network;
pub use sw_link::Wires;
pub use sw_link::flow_control::ASKED_BY_FCT;
pub use sw_machine::Step;
pub use sw_node::PendingReply;
pub use sw_switch::Input;
pub use sw_topo::{LinkEnd, PortSet};
pub use unanswered::{Unanswered, counts_are_unanswered};
