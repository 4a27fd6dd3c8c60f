//! Runs the network core and what stands on it, makes steps of journals, in one thread and in two, and runs loads by the threads of `sw_run`
//! and by the engine of `swcheck run`, with a gate at which the workers wait for one another; tries the parts of a network, by the calls of the
//! lower crates; then makes calls again after want of memory. It prints what came of them. Given a word, it makes those last calls alone.
#![tactic(auto)]

mod cases;
mod engine;
mod journals;
mod memory;
mod moves;
mod nets;
mod numbers;
mod parts;
mod runs;
mod together;
mod work;

use crate::cases::{CALLS, CYCLES, DRAINS, ENGINES, JOURNALS, LIMITS, RUNS, WAITS};
use crate::memory::show_memory;
use crate::parts::show_parts;
use crate::work::show_cases;
use std::{env, io};
use sw_graph::{Progress, SideBySide};

fn main(rt: HostRuntime) -> io::Result<()> {
    let progress = Progress::new();
    if env::args(&rt)?.count() == 1 {
        show_cases(&rt, &rt, DRAINS)
            .and(show_cases(&rt, &rt, LIMITS))
            .and(show_cases(&rt, &rt, WAITS))
            .and(show_cases(&rt, &rt, CALLS))
            .and(show_cases(&rt, &rt, JOURNALS))
            .and(show_cases(&rt, &rt, RUNS))
            .and(show_cases(&rt, &rt, ENGINES))
            .and(show_cases(&rt, &rt, CYCLES))
            .and(show_parts(&rt, &SideBySide::new(&rt, &progress)))?;
    }
    show_memory(&rt)
}
