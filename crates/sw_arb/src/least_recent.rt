//! The port whose last pick is longest ago.
ghost use Rattle.std.specs.Prelude.{◌≡◌, ◌≢◌, ◌<◌, ◌≤◌, ℕ, IsBitSet, slice_index};
ghost use Rattle.sw_arb.specs.PortCounts.{ports_below};
ghost use Rattle.sw_arb.specs.Ranks.{AreRanks, AreDistinct, moved_down};

use crate::arbiter::{Arbiter, FairArbiter};
use crate::count::{lowest, ports_below};
use sw_topo::{Port, PortSet};

/// Picks the asking port whose last pick is longest ago, and of those that were not picked yet the
/// lowest.
#[derive(Drop)]
pub struct LeastRecent {
    ports: PortSet,
    /// For each port, how many of the arbiter's ports were last picked before it was.
    ranks: [u8; 32],
    ghost below: { AreRanks ports ranks },
    ghost distinct: { AreDistinct ports ranks },
}

impl LeastRecent {
    ghost use Rattle.sw_arb.specs.LeastRecent.{IsNewLeastRecent};

    /// An arbiter of those ports that picked none yet.
    pub fn new(ports: PortSet) -> LeastRecent
        ensures { IsNewLeastRecent ports result }
    {
        LeastRecent {
            ports,
            ranks: rising_ranks(ports),
        }
    }

    fn rank(&self, port: Port) -> u8
        ensures { result ≡ slice_index self.now.ranks port }
    {
        self.ranks[port.number() as usize]
    }

    /// The asking port of the least rank.
    fn longest_ago(&self, asking: PortSet) -> Port
        requires { asking ≢ 0 }
        ensures is_port { result < 32 }
        ensures asks { IsBitSet asking result }
        ensures least { (port : ℕ) → port < 32 → IsBitSet asking port →
            slice_index self.now.ranks result ≤ slice_index self.now.ranks port }
    {
        let mut longest = lowest(asking);
        for number in 0..32 {
            if let Some(port) = Port::new(number)
                && asking.contains(port)
                && self.rank(port) < self.rank(longest)
            {
                longest = port;
            }
        }
        longest
    }
}

/// Each port of the set ranks above the lower ones.
fn rising_ranks(ports: PortSet) -> [u8; 32]
    ensures { (port : ℕ) → port < 32 → slice_index result port ≡ ports_below ports port }
{
    let mut ranks = [0; 32];
    for number in 0..32 {
        ranks[number as usize] = ports_below(ports, number);
    }
    ranks
}

/// The port of that number ranks as given, and those that ranked above it move down by one.
fn moved_to(ranks: [u8; 32], number: u8, rank: u8) -> [u8; 32]
    requires { number < 32 }
    ensures moved { slice_index result number ≡ rank }
    ensures others { (port : ℕ) → port < 32 → port ≢ number →
        slice_index result port ≡ moved_down (slice_index ranks number) (slice_index ranks port) }
{
    let left = ranks[number as usize];
    let mut moved = ranks;
    for other in moved.iter_mut() {
        if *other > left {
            *other -= 1;
        }
    }
    moved[number as usize] = rank;
    moved
}

impl Arbiter for LeastRecent {
    ghost use Rattle.sw_arb.specs.LeastRecent.{LeastRecentPicks, least_recent_picks_asking, least_recent_keeps_ports};

    ghost ports = { λ a. a.ports };

    ghost policy = { LeastRecentPicks };

    fn pick(&mut self, asking: PortSet) -> Port {
        let port = self.longest_ago(asking);
        let last = self.ports.len() as u8 - 1;
        self.ranks = moved_to(self.ranks, port.number(), last);
        port
    }

    ghost picks_asking = { least_recent_picks_asking };

    ghost keeps_ports = { least_recent_keeps_ports };
}

impl FairArbiter for LeastRecent {
    ghost use Rattle.sw_arb.specs.LeastRecent.{rank, least_recent_below, least_recent_falls};

    ghost ahead_of = { rank };

    fn ahead(&self, port: Port) -> u8 {
        self.rank(port)
    }

    ghost below = { least_recent_below };

    ghost falls = { least_recent_falls };
}
