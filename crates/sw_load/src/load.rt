//! Packets to be sent.
ghost use Rattle.std.specs.Prelude.{◌≡◌, ◌+◌, ◌≤◌, ◌++◌, ◌∷◌, [], OnErr, OnOk};

use std::alloc::{AllocError, Global};
use std::marker::Model;
use sw_char::End;

/// A load has at most this many packets in all.
pub const MAX_PACKETS: u32 = 65_536;

/// Some packets of one declared flow, all alike.
#[derive(Drop)]
pub struct LoadPacket {
    flow: u16,
    cargo: Vec<u8>,
    end: End,
    count: u16,
}

impl Model for LoadPacket {
    ghost use Rattle.sw_load.specs.Load.{LoadEntry};

    ghost Value = { LoadEntry };

    ghost view = { λ p. record { flow = p.flow; cargo = p.cargo.items; marker = p.end; count = p.count } };
}

impl LoadPacket {
    /// The number of the flow.
    pub fn flow(&self) -> u16
        ensures { result ≡ self.now.flow }
    {
        self.flow
    }

    /// The bytes behind the flow's address.
    pub fn cargo(&self) -> &[u8]
        ensures { result.now ≡ self.now.cargo }
    {
        &self.cargo
    }

    /// How the packets end.
    pub fn end(&self) -> End
        ensures { result ≡ self.now.marker }
    {
        self.end
    }

    /// How many packets there are: 1 to 1,000 in a load that was read.
    pub fn count(&self) -> u16
        ensures { result ≡ self.now.count }
    {
        self.count
    }
}

/// Packets to be sent, in order; at most 65,536.
#[derive(Drop)]
pub struct Load {
    packets: Vec<LoadPacket>,
    total: u32,
}

impl Model for Load {
    ghost use Rattle.std.specs.Prelude.{List};
    ghost use Rattle.sw_load.specs.Load.{LoadEntry, IsTotal};

    ghost Value = { List LoadEntry };

    ghost view = { λ l. l.packets.items };

    ghost invariant = { λ l. IsTotal l.packets.items l.total };
}

impl Load {
    ghost use Rattle.sw_load.specs.Load.{packet_count};

    pub(crate) fn new(alloc: Global) -> Load
        ensures { result ≡ [] }
    {
        Load {
            packets: Vec::new(alloc),
            total: 0,
        }
    }

    /// The entries, in order.
    pub fn packets(&self) -> &[LoadPacket]
        ensures { result.now ≡ self.now }
    {
        &self.packets
    }

    /// How many packets there are in all.
    pub fn total(&self) -> u32
        ensures count { result ≡ packet_count self.now }
        ensures few { result ≤ MAX_PACKETS }
    {
        self.total
    }

    /// Adds an entry. After want of memory the load is as it was.
    pub(crate) fn add(
        &mut self,
        flow: u16,
        cargo: Vec<u8>,
        end: End,
        count: u16,
    ) -> Result<(), AllocError>
        requires { packet_count self.old + count ≤ MAX_PACKETS }
        ensures added { OnOk result (self.new ≡ self.old ++ record { flow = flow; cargo = cargo.items; marker = end; count = count } ∷ []) }
        ensures refused { OnErr result (self.new ≡ self.old) }
    {
        self.packets.push(LoadPacket {
            flow,
            cargo,
            end,
            count,
        })?;
        self.total += u32::from(count);
        Ok(())
    }
}
