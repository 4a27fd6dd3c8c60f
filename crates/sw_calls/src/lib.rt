//! What each program of swcheck does: it reads the words that it was given, tells of those that give no call, and opens the files that a call
//! names for the engines of `sw_app`.
#![tactic(auto)]

mod files;
mod given;
mod refusals;
mod telling;
mod told;
mod verdict_calls;

pub use files::{
    check_files, check_files_in_form, decide_file, migrate_file, report_file, route_file,
    write_sample,
};
pub use given::{given_call, given_texts, given_words};
pub use telling::{Hints, Notes, Telling, telling_of};
pub use told::{no_telling, tell_refused, told_end};
pub use verdict_calls::run_verdicts;
