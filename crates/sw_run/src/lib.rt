//! A load is run on a network by threads: a lock for each cell and one for the journal, and what
//! comes out is a history that one thread could have made.
#![tactic(auto)]

mod arbiters;
mod gate;
mod grant;
pub mod laws;
mod locks;
mod notes;
mod outcome;
mod run_cell;
mod run_identity;
mod run_journal;
mod running;
mod sleepers;
mod terminal_seconds;
mod turn;
mod workers;

pub use gate::{Gate, Open};
pub use outcome::{Outcome, Stop};
pub use running::run;
pub use sw_cell::CellId;
pub use sw_config::Network;
pub use sw_journal::{Cell, Journal, JournalFault, Numbers, Part, PortPart};
pub use sw_load::laws::listed_are_declared;
pub use sw_load::{Load, enough_limit};
pub use terminal_seconds::with_progress;
