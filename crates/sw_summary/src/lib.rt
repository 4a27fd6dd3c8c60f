//! A summary of a run: what became of the packets of each flow, which replies came out, and which commands nobody answers; and how
//! full the receive buffers get.
#![tactic(auto)]

mod begun;
mod buffer_lines;
mod came_out;
mod declared;
mod fills;
mod flow_lines;
mod handling;
mod key_counts;
pub mod laws;
mod replies;
mod status_lines;
mod summary;
mod unanswered;

pub use buffer_lines::fill_lines;
pub use fills::greatest_fills;
pub use summary::summary_of;
