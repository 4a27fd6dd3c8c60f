//! Steps of a journal that are tried one by one, and by two threads. How loads run to their end, by one worker too, is rows of `tests/run.rows`.
ghost use Rattle.sw_load.specs.Laws.{AreDeclared};

mod pair;
pub(crate) mod tried;
mod two_threads;

use crate::journals::pair::Pair;
use crate::journals::tried::{JournalTrial, show_tried};
use std::io;
use std::sync::{Mutex, Wait};
use std::thread::Threads;
use sw_config::Network;
use sw_load::Load;

/// Does that with a journal of two nodes, the first of which has one packet to send, and of so many steps at most. It prints what came of it.
pub(crate) fn show_journal<R: Threads + Wait + Sync>(
    rt: &HostRuntime,
    threads: &R,
    network: &Network,
    load: &Load,
    limit: usize,
    trials: &[JournalTrial],
) -> io::Result<()>
    requires { AreDeclared network.now load.now }
{
    let mut pair = Mutex::new(Pair::open(rt.alloc(), network, load, limit)?);
    let shown = show_tried(rt, threads, &mut pair, trials);
    pair.into_inner().discard();
    shown
}
