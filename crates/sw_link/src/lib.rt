//! The two ends of a channel: credit, flow control characters (FCTs) and the receive buffer; and what
//! lies between them: the wires of a network's channels, and the FCTs under way.
#![tactic(auto)]

pub mod flow_control;
pub mod laws;
mod rx;
mod tx;
mod wires;

pub use rx::RxEnd;
pub use tx::TxEnd;
pub use wires::Wires;
