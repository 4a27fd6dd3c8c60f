//! The levels of the channels, or the cycle to show.
ghost use Rattle.std.specs.Prelude.{IfOk, length};
ghost use Rattle.sw_flow.specs.Places.{ends_of};
ghost use Rattle.sw_graph.specs.Answers.{Answers};
ghost use Rattle.sw_search.specs.Lists.{AreRows};
ghost use Rattle.sw_search.specs.Verdicts.{depends};

use crate::workers::VerdictWorkers;
use std::alloc::{AllocError, Global};
use sw_config::Network;
use sw_graph::{Order, order};

/// The order of the dependencies, given by rows.
pub(crate) fn ordered<W: VerdictWorkers>(
    workers: &W,
    alloc: Global,
    network: &Network,
    rows: &[Vec<u16>],
) -> Result<Order, AllocError>
    requires { AreRows network.now rows.now }
    ensures { IfOk result (Answers (depends network.now) (length (ends_of network.now))) }
{
    // There are at most 2,048.
    let _channels = network.channels();
    order(workers, alloc, rows)
}
