//! Single changes that make a network free of deadlocks, and pairs of them.
#![tactic(auto)]

mod change;
pub mod change_laws;
pub mod cycle_laws;
mod flows;
mod judging;
pub mod laws;
mod limiting;
pub mod limiting_laws;
mod links;
mod listing;
mod moved;
mod outstanding;
mod pairs;
mod parts;
mod rebuilt;
mod sparing;
pub mod split_laws;
mod splitting;
mod tables;
mod trials;
mod uses;

pub use change::{Change, Pair, TargetLink, Trial};
pub use limiting::{Limiting, TargetSlots, find_limiting};
pub use outstanding::network_with_outstanding;
pub use pairs::pair_mends;
pub use rebuilt::{network_with, network_with_all};
pub use trials::{mends, unit_mends};
