//! The load file, which lists packets to be sent, each of them one that a flow declares; and the histories
//! of a load: what each node begins in them, and how long they can be in a network that can't lock up.
#![tactic(auto)]

mod cargo;
pub mod history_laws;
pub mod laws;
mod limit;
mod load;
mod reading;
mod senders;

pub use cargo::{MAX_CARGO, count_of, hex_pair, pairs_of};
pub use limit::enough_limit;
pub use load::{Load, LoadPacket, MAX_PACKETS};
pub use reading::read_load;
pub use senders::Senders;
pub use sw_machine::in_flow;
