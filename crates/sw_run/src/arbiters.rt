//! The arbiters of a cell.
ghost use Rattle.std.specs.Prelude.{IfOk};
ghost use Rattle.sw_cell.specs.Places.{IsIn};
ghost use Rattle.sw_run.specs.Arbiters.{HasNewArbiters};

use std::alloc::{AllocError, Global};
use sw_arb::Policy;
use sw_cell::CellId;
use sw_config::Network;
use sw_topo::limits::PORTS;

/// The arbiters of the cell, which has some if it is a switch: by port, one for each output.
pub(crate) fn new_arbiters(
    alloc: Global,
    network: &Network,
    id: CellId,
) -> Result<Vec<Policy>, AllocError>
    requires { IsIn network.now id }
    ensures { IfOk result (λ v. HasNewArbiters network.now id v.items) }
{
    let CellId::Switch(w) = id else {
        return Ok(Vec::new(alloc));
    };
    let linked = network.topology().linked(w);
    let mut all = Vec::with_capacity(alloc, PORTS as usize)?;
    for _number in 0..PORTS as usize {
        all.push(Policy::new(network.arbitration(w), linked))?;
    }
    Ok(all)
}
