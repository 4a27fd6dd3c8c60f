//! Networks that are drained.
ghost use Rattle.sw_load.specs.Laws.{AreDeclared};
ghost use Rattle.sw_net.specs.New.{IsNewNet};

use crate::nets::Core;
use crate::nets::show::{Detail, show_nodes};
use crate::work::no_text;
use std::{fs, io};
use sw_cert::{Certificate, check};
use sw_config::Network;
use sw_graph::OneByOne;
use sw_history::drain;
use sw_load::Load;

/// The file of a network's certificate, and the least and the most steps other than beginnings.
pub(crate) struct Bounds {
    pub(crate) certificate: &'static str,
    pub(crate) least: u64,
    pub(crate) most: u64,
}

/// Which of the link ends that can make a step makes it.
#[derive(Clone, Copy)]
pub(crate) enum Choice {
    First,
    Last,
    /// A number that none of them has.
    OutOfRange,
}

/// The same with the certificate that was read.
fn show_certified<'n>(
    rt: &HostRuntime,
    network: &'n Network,
    net: &mut Core<'n>,
    load: &Load,
    certificate: &Certificate,
    bounds: &Bounds,
    choice: Choice,
) -> io::Result<()>
    requires new { IsNewNet network.now net.old }
    requires packets { AreDeclared network.now load.now }
{
    let pick = |count: usize| match choice {
        Choice::First => 0,
        Choice::Last => count.saturating_sub(1),
        Choice::OutOfRange => count,
    };
    match check(&OneByOne, network, certificate) {
        Ok(passed) => {
            let steps = drain(rt.alloc(), net, &passed, load, pick)?;
            let within = bounds.least <= steps && steps <= bounds.most;
            let shown = show_nodes(rt, net, Detail::Counts);
            shown.and(println!(rt;
                ", {} left, steps within bounds: {within}",
                net.undelivered()
            ))
        }
        Err(_) => Err(no_text()),
    }
}

/// Prints what came out at the nodes, and whether the number of steps is within the bounds.
pub(crate) fn show_drain<'n>(
    rt: &HostRuntime,
    network: &'n Network,
    net: &mut Core<'n>,
    load: &Load,
    bounds: &Bounds,
    choice: Choice,
) -> io::Result<()>
    requires new { IsNewNet network.now net.old }
    requires packets { AreDeclared network.now load.now }
{
    let text = fs::read(rt, bounds.certificate)?;
    match Certificate::read(rt.alloc(), &text) {
        Ok(certificate) => show_certified(rt, network, net, load, &certificate, bounds, choice),
        Err(_) => Err(no_text()),
    }
}
