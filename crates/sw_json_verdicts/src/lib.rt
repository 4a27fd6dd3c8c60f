//! The answers of `route`, `report` and `check` as an object of JSON.
//!
//! The engine of `swcheck audit`: verdicts on many files.
#![tactic(auto)]

mod audit_answer;
mod audit_engine;
pub mod audit_laws;
mod audit_options;
mod audit_texts;
mod check_values;
mod disk;
mod findings;
mod judged;
pub mod laws;
mod names;
mod parallel;
mod reasons;
mod report_values;
mod route_values;
mod statuses;
mod stores;
mod verdict_values;

pub use audit_engine::{AuditEnd, audit, audit_one};
pub use audit_options::AuditOptions;
pub use disk::Disk;
pub use stores::{AuditInput, Storage};
pub use sw_json::Release;
pub use verdict_values::VerdictValues;
