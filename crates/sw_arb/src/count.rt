//! Ports of a set that are counted, and the lowest.
ghost use Rattle.std.specs.Prelude.{◌≡◌, ◌≢◌, ◌<◌, ◌≤◌, ◌↔◌, IsBitSet, IsTrue};
ghost use Rattle.sw_arb.specs.PortCounts.{ports_below};
ghost use Rattle.sw_topo.specs.Ports.{IsLeastFrom};

use sw_topo::{Port, PortSet};

/// How many ports of the set are below that number.
pub(crate) fn ports_below(ports: PortSet, number: u8) -> u8
    requires { number ≤ 32 }
    ensures { result ≡ ports_below ports number }
{
    let mut count = 0;
    for below in 0..number {
        if has(ports, below) {
            count += 1;
        }
    }
    count
}

/// Is the port of that number in the set?
fn has(ports: PortSet, number: u8) -> bool
    requires { number < 32 }
    ensures { IsTrue result ↔ IsBitSet ports number }
{
    match Port::new(number) {
        Some(port) => ports.contains(port),
        None => unreachable!(),
    }
}

/// The lowest port of a set that has some.
pub(crate) fn lowest(ports: PortSet) -> Port
    requires { ports ≢ 0 }
    ensures { IsLeastFrom 0 ports result }
{
    match ports.first() {
        Some(port) => port,
        None => unreachable!(),
    }
}
