//! Answers, verdicts, faults, files and places as values of JSON, and their text; and how the engines tell an answer round what they found.
#![tactic(auto)]

mod answering;
mod answers;
mod codes;
mod command_outcome;
mod cycles;
mod digests;
mod faults;
mod files;
mod inputs;
pub mod laws;
mod lists;
mod object_form;
mod objects;
mod places;
mod simple;
mod texts;
mod verdicts;

pub use answering::{faulty_file, file_fault, long_file, tell_memory};
pub use answers::{answer_value, file_fault_value};
pub use codes::route_fault_code;
pub use command_outcome::CommandOutcome;
pub use digests::digest_text;
pub use faults::{fault_value, long_value, schedule_fault_value, unknown_flow_value};
pub use files::{Release, audit_value, bare_entry, kind_value, read_entry};
pub use inputs::{input_value, long_input};
pub use lists::{add_value, flow_name_values, text_values};
pub use object_form::{ObjectForm, SecondFile, Values};
pub use objects::{Member, object_of};
pub use places::{finish_text, misrouted_fault_value, place_value, place_values, start_text};
pub use serde_json::Value;
pub use simple::{count_or_null, text_or_null};
pub use texts::text_of;
pub use verdicts::verdict_value;
