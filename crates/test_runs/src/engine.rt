//! The engine of `swcheck run`, with workers that wait for one another.

use crate::together::Together;
use crate::work::no_text;
use std::io;
use std::sync::Wait;
use std::thread::Threads;
use sw_engine::Lines;
use sw_runs::{Options, run};
use sw_text::Ended;

/// As many workers as link ends, and so many steps as are enough for the load.
const OPTIONS: Options = Options {
    workers: 12,
    limit: 1_000_000,
};

/// Runs the load with a gate at which the workers wait for one another, and prints how the run ended.
pub(crate) fn show_engine<R: Threads + Wait + Sync>(
    rt: &HostRuntime,
    threads: &R,
    mut network: &[u8],
    mut load: &[u8],
) -> io::Result<()> {
    let gate = Together::new(false);
    let mut writer = io::writer(rt);
    let end = run(
        threads,
        rt.alloc(),
        &mut network,
        &mut load,
        OPTIONS,
        &gate,
        &Lines,
        &mut writer,
    );
    let Ended::Status(status) = end.into_ended() else {
        return Err(no_text());
    };
    let (late, all) = (gate.is_late(), gate.have_all_come());
    println!(rt; "status {status}\nlate {late}, all came {all}")
}
