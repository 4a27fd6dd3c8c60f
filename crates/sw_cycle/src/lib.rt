//! The dependencies between channels, as rows of successors; their cycles, the check of these, and the
//! flows and places that cause them.
#![tactic(auto)]

mod check;
mod choose;
mod cycle;
mod dependency_rows;
mod firsts;
mod flow_places;
mod goers;
pub mod laws;
mod marks;
mod named;
mod parallel;
mod positions;
mod rows;
mod steps;

pub use check::check_cycle;
pub use choose::causes;
pub use cycle::{Cause, Cycle};
pub use dependency_rows::{dependencies, routed_dependencies};
pub use goers::flows_of_steps;
pub use parallel::PortWorkers;
pub use sw_flow::{Place, RouteFault};
pub use sw_topo::Chan;
