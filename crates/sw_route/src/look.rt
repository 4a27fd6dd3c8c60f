//! What a byte names, and an entry of a routing table.
ghost use Rattle.std.specs.Prelude.{◌≡◌, ◌<◌, IsTrue};

use sw_topo::{Port, PortSet};

/// What a byte names at a switch (ECSS-E-ST-50-12C, network layer: packet addressing): the ports, and whether the byte is deleted
/// there.
#[derive(Clone, Copy, PartialEq, Eq)]
pub struct Look {
    /// The ports that the byte names, also those that have no link; several are a group.
    pub ports: PortSet,
    /// Is the byte deleted at the switch?
    pub delete: bool,
}

impl Look {
    ghost use Rattle.sw_route.specs.Looks.{path_look, no_look};

    /// No port.
    pub fn none() -> Look
        ensures { result ≡ no_look }
    {
        Look {
            ports: PortSet::EMPTY,
            delete: false,
        }
    }

    /// What a path address names: that port alone. The address is deleted (ECSS-E-ST-50-12C, network layer: packet addressing).
    pub fn path(port: Port) -> Look
        ensures { result ≡ path_look port }
    {
        Look {
            ports: PortSet::single(port),
            delete: true,
        }
    }
}

/// An entry of a routing table: the logical addresses from `first` to `last` name these ports (ECSS-E-ST-50-12C, network layer:
/// packet addressing).
#[derive(Clone, Copy, PartialEq, Eq)]
pub struct Route {
    /// 32 to 254.
    pub first: u8,
    /// `first` to 254.
    pub last: u8,
    /// The ports of the entry; several are a group.
    pub ports: PortSet,
    /// Is the address deleted there (regional addressing)?
    pub delete: bool,
}

impl Route {
    ghost use Rattle.sw_route.specs.Looks.{covers, overlaps};

    /// Is the entry for that address?
    pub fn covers(&self, address: u8) -> bool
        ensures { result ≡ covers address self.now }
    {
        self.first <= address && address <= self.last
    }

    /// Are the two for an address in common?
    pub fn overlaps(&self, other: &Route) -> bool
        ensures { result ≡ overlaps self.now other.now }
    {
        other.first <= self.last && self.first <= other.last
    }

    /// What its addresses name.
    pub fn look(&self) -> Look
        ensures { result ≡ record { ports = self.now.ports; delete = self.now.delete } }
    {
        Look {
            ports: self.ports,
            delete: self.delete,
        }
    }
}
