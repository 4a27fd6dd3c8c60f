//! Ports, and sets of them, by their numbers.
ghost use Rattle.std.specs.Prelude.{◌<◌};

use sw_topo::{Port, PortSet};

/// The port of that number.
pub fn port(number: u8) -> Port
    requires { number < 32 }
{
    Port::new(number).unwrap()
}

/// The set of the ports of those numbers that are below 32.
pub fn ports(numbers: &[u8]) -> PortSet {
    let mut ports = PortSet::EMPTY;
    for number in numbers {
        if let Some(port) = Port::new(*number) {
            ports = ports.with(port);
        }
    }
    ports
}
