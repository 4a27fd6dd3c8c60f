//! What an arbiter is.
ghost use Rattle.std.specs.Prelude.{◌≡◌, ◌≢◌, ℕ, IsBitSet};
ghost use Rattle.sw_arb.specs.Arbiters.{IsWithin, AheadIsBelow, AheadFalls};

use sw_topo::{Port, PortSet};

/// Picks one of the ports that ask, of a set of ports that it was made with (ECSS-E-ST-50-12C,
/// network layer: arbitration).
pub trait Arbiter {
    /// The ports that it was made with.
    ghost ports: { Self → ℕ };

    /// What an arbiter, where some ports ask, picks and becomes.
    ghost policy: { Self → ℕ → ℕ → Self → Type 0 };

    /// Picks one of the ports that ask. At least one has to, and each has to be one of the
    /// arbiter's.
    fn pick(&mut self, asking: PortSet) -> Port
        requires asks { asking ≢ 0 }
        requires within { IsWithin asking (ports self.old) }
        ensures policy { policy self.old asking result self.new }
        ensures member { IsBitSet asking result }
        ensures ports { ports self.new ≡ ports self.old };

    ghost picks_asking: { (a b : Self) (asking pick : ℕ) → policy a asking pick b → IsBitSet asking pick };

    ghost keeps_ports: { (a b : Self) (asking pick : ℕ) → policy a asking pick b → ports b ≡ ports a };
}

/// An arbiter that does not pass over a port for long.
pub trait FairArbiter: Arbiter {
    /// At most how often a port is passed over before it is picked, if it asks each time.
    ghost ahead_of: { Self → ℕ → ℕ };

    /// At most how often the port, one of the arbiter's, is passed over before it is picked, if it
    /// asks each time from now on.
    fn ahead(&self, port: Port) -> u8
        requires { IsBitSet (Self.ports self.now) port }
        ensures { result ≡ ahead_of self.now port };

    ghost below: { AheadIsBelow Self.ports ahead_of };

    ghost falls: { AheadFalls Self.ports Self.policy ahead_of };
}
