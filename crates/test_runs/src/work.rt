//! What is done with the files of a network and a load. One function alone owns the network: a path that drops one is dear to prove.
ghost use Rattle.sw_load.specs.Laws.{AreDeclared};

use crate::engine::show_engine;
use crate::journals::show_journal;
use crate::journals::tried::JournalTrial;
use crate::nets::{CoreWork, show_core};
use crate::parts::cycles::{Shown, are_told};
use crate::runs::show_run;
use std::io::ErrorKind;
use std::sync::Wait;
use std::thread::Threads;
use std::{fs, io};
use sw_config::Network;
use sw_file::read_network;
use sw_load::laws::listed_are_declared;
use sw_load::{Load, enough_limit, read_load};

/// What is printed before, the files of a network and of a load, and what is done with them.
pub(crate) type Case = (&'static str, &'static str, &'static str, Work);

/// What is done with a network and a load.
#[derive(Clone, Copy)]
pub(crate) enum Work {
    /// The limit that no history of the load reaches is told.
    Limit,
    /// The network's core makes steps from its empty state on.
    Core(CoreWork),
    /// Steps of a journal of the load are tried, which has so many steps at most.
    Journal(usize, &'static [JournalTrial]),
    /// The network's cycles are told from what is none.
    Cycles(&'static [Shown]),
    /// The load is run by a worker and so many others.
    Run(u8),
    /// It is run by the engine of `swcheck run`, which reads both texts.
    Engine,
}

/// What is said of a file that does not have the text that it should.
pub(crate) fn no_text() -> io::Error {
    io::Error::from(ErrorKind::InvalidData)
}

fn show_load<R: Threads + Wait + Sync>(
    rt: &HostRuntime,
    threads: &R,
    network: &Network,
    load: &Load,
    work: Work,
) -> io::Result<()>
    requires { AreDeclared network.now load.now }
{
    match work {
        Work::Limit | Work::Engine => println!(rt; "{}", enough_limit(network, load)),
        Work::Core(work) => show_core(rt, network, load, work),
        Work::Journal(limit, trials) => show_journal(rt, threads, network, load, limit, trials),
        Work::Cycles(all) => println!(rt; "{}", are_told(rt.alloc(), network, all)),
        Work::Run(others) => show_run(rt, threads, network, load, others),
    }
}

/// Does it with the load that the text declares.
fn show_read<R: Threads + Wait + Sync>(
    rt: &HostRuntime,
    threads: &R,
    network: &Network,
    load: &[u8],
    work: Work,
) -> io::Result<()> {
    listed_are_declared();
    match read_load(rt.alloc(), network, load) {
        Ok(load) => show_load(rt, threads, network, &load, work),
        Err(_) => Err(no_text()),
    }
}

/// Does it with the network and the load that the texts declare.
fn show_texts<R: Threads + Wait + Sync>(
    rt: &HostRuntime,
    threads: &R,
    network: &[u8],
    load: &[u8],
    work: Work,
) -> io::Result<()> {
    match read_network(rt.alloc(), network) {
        Ok(network) => {
            let shown = show_read(rt, threads, &network, load, work);
            network.discard();
            shown
        }
        Err(_) => Err(no_text()),
    }
}

/// Prints what comes of the case.
fn show_case<R: Threads + Wait + Sync>(
    rt: &HostRuntime,
    threads: &R,
    case: &Case,
) -> io::Result<()> {
    let (title, network, load, work) = *case;
    rt.print(title)?;
    let network = fs::read(rt, network)?;
    let load = fs::read(rt, load)?;
    match work {
        Work::Engine => show_engine(rt, threads, &network, &load),
        _ => show_texts(rt, threads, &network, &load, work),
    }
}

/// Prints what comes of each case. `threads` is the same as `rt`, which is known to start threads and to wait in `main` alone.
pub(crate) fn show_cases<R: Threads + Wait + Sync>(
    rt: &HostRuntime,
    threads: &R,
    cases: &[Case],
) -> io::Result<()> {
    let mut shown = Ok(());
    for case in cases {
        shown = shown.and(show_case(rt, threads, case));
    }
    shown
}
