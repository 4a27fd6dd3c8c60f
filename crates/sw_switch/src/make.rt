//! A new switch.
ghost use Rattle.std.specs.Prelude.{◌≡◌, ℕ, length, replicate, map, All, slice_get, Some, IfOk, vec_len};
ghost use Rattle.sw_link.specs.Ends.{IsCapacity};
ghost use Rattle.sw_switch.specs.Cell.{HaveArbiters, new_end, new_cell};
ghost use Rattle.sw_switch.specs.declared.input.Input.{Input};

use crate::cell::SwitchCell;
use crate::input::Input;
use std::alloc::{AllocError, Global};
use sw_arb::Arbiter;
use sw_link::{RxEnd, TxEnd};
use sw_route::Routing;
use sw_topo::PortSet;
use sw_topo::limits::PORTS;

fn no_credits(alloc: Global, ports: usize) -> Result<Vec<TxEnd>, AllocError>
    ensures { IfOk result (λ ends. ends.items ≡ replicate ports 0) }
{
    let mut ends = Vec::new(alloc);
    for _ in 0..ports {
        ends.push(TxEnd::new())?;
    }
    Ok(ends)
}

fn empty_ends(alloc: Global, capacities: &[usize]) -> Result<Vec<RxEnd>, AllocError>
    requires { All IsCapacity capacities.now }
    ensures { IfOk result (λ ends. ends.items ≡ map new_end capacities.now) }
{
    let mut ends = Vec::new(alloc);
    for capacity in capacities {
        ends.push(RxEnd::new(alloc, *capacity)?)?;
    }
    Ok(ends)
}

/// What a new switch keeps of its ports: their credits, their inputs and their receiving ends.
fn new_ports(
    alloc: Global,
    capacities: &[usize],
) -> Result<(Vec<TxEnd>, Vec<Input>, Vec<RxEnd>), AllocError>
    requires { All IsCapacity capacities.now }
    ensures { IfOk result (λ ports. (ports.0.items ≡ replicate 32 0)
        × (ports.1.items ≡ replicate 32 Input.Idle)
        × (ports.2.items ≡ map new_end capacities.now)) }
{
    let credits = no_credits(alloc, PORTS as usize)?;
    let inputs = vec![in alloc; Input::Idle; PORTS as usize]?;
    Ok((credits, inputs, empty_ends(alloc, capacities)?))
}

impl<R: Routing + Drop, A: Arbiter + Drop> SwitchCell<R, A> {
    /// A switch with links at those ports. The capacities, each 8 to 4,096, and the arbiters go by
    /// port, 0 to 31. A port without a link needs no arbiter; its capacity has to be in range all the
    /// same, and its buffer is made and never used.
    ///
    /// # Errors
    ///
    /// There is no memory for what the switch keeps: then the routing and the arbiters are gone.
    pub fn new(
        alloc: Global,
        routes: R,
        linked: PortSet,
        capacities: &[usize],
        arbiters: Vec<Option<A>>,
    ) -> Result<SwitchCell<R, A>, AllocError>
        requires ports { length capacities.now ≡ 32 }
        requires capacities { All IsCapacity capacities.now }
        requires arbiters { vec_len arbiters ≡ 32 }
        requires arbiter_ports { HaveArbiters A.ports linked arbiters.items }
        ensures { IfOk result (λ cell. cell ≡ new_cell routes linked capacities.now arbiters.items) }
    {
        let (credits, inputs, received) = new_ports(alloc, capacities)?;
        Ok(SwitchCell {
            routes,
            linked,
            waiting: PortSet::EMPTY,
            credits,
            inputs,
            received,
            arbiters,
        })
    }
}
