//! Finite relations: the least set of numbers that holds a start and is closed under steps, a way to
//! one of them, and the order of a relation, the level of each member or a cycle; the components in which each
//! number leads to each other, and a shortest cycle of each.
//!
//! The same call at many numbers, in as many threads as there are processors, and who makes such calls: threads, or the caller's own thread alone.
#![tactic(auto)]

mod answer;
mod component;
pub mod component_laws;
mod component_list;
mod cycle;
mod cycle_through;
pub mod laws;
mod least;
mod marks;
mod ordering;
mod predecessors;
mod progress;
mod round_workers;
mod rounds;
mod rows;
mod search;
mod shortest_cycle;
pub mod side_by_side;
mod steps;
mod together;
mod turn;
mod walk;
mod ways;
mod workers;

pub use answer::Order;
pub use component::Component;
pub use component_list::components;
pub use least::reached;
pub use ordering::order;
pub use predecessors::predecessors_of;
pub use progress::Progress;
pub use round_workers::RoundWorkers;
pub use rows::{add_to_row, empty_rows};
pub use steps::Steps;
pub use ways::way;
pub use workers::{OneByOne, SideBySide, Workers};
