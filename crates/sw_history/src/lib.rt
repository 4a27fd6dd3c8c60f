//! The history of a load in a network: the steps that were made, each possible where it stands; and a whole
//! load that is sent through a network that can't lock up, until nothing is left in it.
#![tactic(auto)]

mod asked;
mod begin;
mod choice;
pub mod drain_laws;
mod draining;
mod fault;
mod history;
pub mod laws;
mod making;
mod moves;
mod packets;
mod record;

pub use draining::drain;
pub use fault::StepFault;
pub use history::History;
pub use record::Record;
