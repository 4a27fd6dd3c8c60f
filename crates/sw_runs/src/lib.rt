//! The engines that make steps: of `swcheck replay` and `swcheck run`, whose answers are lines or an object of JSON, and of `swcheck witness`.
#![tactic(auto)]

mod came_out_values;
pub mod laws;
mod replay_finding;
mod replay_texts;
mod replay_values;
mod run_finding;
mod run_texts;
mod run_values;
mod summaries;
mod witness_finding;
mod witness_texts;

pub use replay_finding::{ReplayFinding, ReplayReport, RunValues, replay};
pub use run_finding::{Options, RunFinding, RunReport, RunSchedule, Wants, run, run_recorded};
pub use sw_run::{Gate, Open};
pub use witness_finding::{WitnessFinding, witness};
