//! What `rmap` finds, the entry of a load that brings a flow's target an RMAP command, and its engine.
#![tactic(auto)]

mod entry_texts;
mod fault;
mod flow_command;
pub mod laws;
mod order;
mod packet;
mod request;
mod rmap_finding;
mod words;

pub use fault::{RmapFault, fault_words};
pub use request::{Access, Request};
pub use rmap_finding::{RmapFinding, rmap};
