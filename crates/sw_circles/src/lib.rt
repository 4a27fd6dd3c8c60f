//! Flows whose packets can come back to where they were, and flows of which no packet arrives.
#![tactic(auto)]

mod circling;
pub mod laws;
mod of_network;
mod rows;

pub use circling::{arrives, circles};
pub use of_network::{Circling, circling_flow, circling_flows};
