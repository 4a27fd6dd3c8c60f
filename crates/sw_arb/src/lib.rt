//! Which input of a routing switch is granted an output.
#![tactic(auto)]

mod arbiter;
mod arbitration;
mod count;
mod fixed;
pub mod laws;
mod least_recent;
mod policy;
mod round_robin;

pub use arbiter::{Arbiter, FairArbiter};
pub use arbitration::Arbitration;
pub use fixed::Fixed;
pub use least_recent::LeastRecent;
pub use policy::Policy;
pub use round_robin::RoundRobin;
