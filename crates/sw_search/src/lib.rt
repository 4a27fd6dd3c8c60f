//! The verdict on a network: misrouted, cyclic, or free of deadlocks; and why it can lock up: the flow that
//! is not well routed, or the tangles of its channels, each with a shortest cycle.
#![tactic(auto)]

mod counts;
mod cyclic;
mod deciding;
mod explaining;
mod explanation;
pub mod explanation_laws;
mod free;
mod freedom;
pub mod laws;
mod misrouted;
mod misrouted_way;
mod order;
mod tangle;
mod tangling;
mod verdict;
mod workers;

pub use deciding::{decide, survey};
pub use explaining::explain;
pub use explanation::Explanation;
pub use freedom::is_free;
pub use misrouted::fault_of_flow;
pub use sw_cert::{Certificate, Passed, check};
pub use sw_cycle::{Cause, Cycle, check_cycle, dependencies};
pub use tangle::Tangle;
pub use tangling::tangles;
pub use verdict::{Findings, Verdict};
pub use workers::VerdictWorkers;
