//! A search for a lock-up: a schedule that leads a network into one. What is found is replayed before it is told. And replies that
//! can't happen, and whether a network is free without them.
#![tactic(auto)]

mod awaited;
mod circle;
mod command;
mod confirm;
mod cover;
mod finding;
pub mod laws;
mod leg;
mod load;
mod marks;
mod notes;
mod order;
mod placing;
mod plan;
mod random;
mod round;
mod scheduled_net;
mod task;
mod trial;
mod unanswered_flows;
mod unlimited;
mod wake;
mod wandering;
mod way;
mod ways;
mod without;
mod worm;

pub use confirm::locks_up;
pub use finding::find;
pub use unanswered_flows::never_answered;
pub use without::is_free_without;
