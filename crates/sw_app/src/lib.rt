//! The engines of the program swcheck.
#![tactic(auto)]

mod check_finding;
mod check_texts;
mod decide_finding;
mod init_engine;
pub mod laws;
mod migrate_engine;
mod report_finding;
mod route_finding;
mod route_texts;
mod samples;
mod verdict_texts;

pub use check_finding::{CheckFinding, check};
pub use check_texts::{grammar_words, refusal_words};
pub use decide_finding::{DecideFinding, decide, find_verdict};
pub use init_engine::init;
pub use migrate_engine::{FaultyText, MigrateEnd, migrate};
pub use report_finding::{ReportFinding, report};
pub use route_finding::{FlowRoute, RouteFinding, outcome_status, route};
pub use samples::{Sample, sample_named};
pub use sw_search::VerdictWorkers;
pub use sw_text::{Ended, MAX_TEXT, fault_text};
