//! A walk over the ports of a set.

use crate::port::{Port, PortSet};
use std::marker::Model;

/// The ports of a set that are still to come, in rising order.
#[derive(Clone, Copy)]
pub struct Ports {
    rest: PortSet,
}

impl Model for Ports {
    ghost use Rattle.std.specs.Prelude.{ℕ};

    ghost Value = { ℕ };

    ghost view = { λ p. p.rest };

    ghost inverse = { λ n. record { rest = n } };
}

impl PortSet {
    ghost use Rattle.std.specs.Prelude.{◌≡◌, ◌≤◌, length};
    ghost use Rattle.sw_topo.specs.Ports.{ports_of};

    /// Its ports, in rising order.
    pub fn ports(self) -> Ports
        ensures all { result ≡ self }
        ensures few { length (ports_of self) ≤ 32 }
    {
        Ports { rest: self }
    }
}

impl Iterator for Ports {
    ghost use Rattle.std.specs.Iterator.{YieldsFirst, item_count};
    ghost use Rattle.sw_topo.specs.Ports.{ports_of};

    type Item = Port;

    ghost next_gives = { YieldsFirst ports_of };

    ghost remaining = { item_count ports_of };

    fn next(&mut self) -> Option<Port> {
        let port = self.rest.first()?;
        self.rest = self.rest.without(port);
        Some(port)
    }
}
