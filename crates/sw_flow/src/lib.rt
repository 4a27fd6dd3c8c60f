//! Flows: the places that they reach, and the packets that they may carry.
#![tactic(auto)]

mod check;
mod fault;
mod following;
pub mod laws;
mod parallel;
mod place;
mod routes;
mod steps;
mod walk;
mod ways;

pub use check::{fault_at, fault_in, first_fault, has_output};
pub use fault::RouteFault;
pub use following::follows;
pub use parallel::{PlaceWorkers, all_places, flows_a_thread};
pub use place::Place;
pub use routes::places;
pub use sw_config::{Chan, Flow, MAX_ADDRESS, Network, Reply};
pub use walk::{Followers, flow_start, followers_in};
pub use ways::way_to;
