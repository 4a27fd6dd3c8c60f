//! `swcheck` with the commands that give a verdict alone: what a first answer needs.
#![tactic(auto)]

use std::process::ExitCode;
use sw_calls::run_verdicts;
use sw_graph::{Progress, SideBySide};

fn main(rt: HostRuntime) -> ExitCode {
    let progress = Progress::new();
    ExitCode::from(run_verdicts(&rt, &SideBySide::new(&rt, &progress)))
}
