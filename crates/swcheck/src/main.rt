//! `swcheck`: a checker of SpaceWire networks. It opens the files that its words name, hands them on to the engines of `sw_app` and of the other
//! crates whose names begin so, and tells of words that give no call, of a read or a write that failed, and how to mend a network file with a fault.
#![tactic(auto)]

mod asked;
mod call_end;
mod commands;
mod folder_ends;
mod found_hints;
mod notes;
mod noting_writer;
mod objects;
mod opened;
mod other_cycles;
mod program;
mod recorded;
mod rmap_words;
mod told;
mod unread;

use program::run_program;
use std::io::IsTerminal;
use std::process::ExitCode;
use sw_engine::SystemFiles;
use sw_graph::{Progress, SideBySide};
use sw_run::with_progress;

/// On a terminal it shows, while the call goes on, for how long it has, and how much of a long work is done.
fn main(rt: HostRuntime) -> ExitCode {
    let files = SystemFiles { host: &rt };
    let progress = Progress::new();
    let run = || run_program(&rt, &files, &SideBySide::new(&rt, &progress));
    let status = if rt.stderr().is_terminal() {
        with_progress(&rt, &progress, run)
    } else {
        run()
    };
    ExitCode::from(status)
}
