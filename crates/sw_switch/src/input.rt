//! What an input of a switch does.
ghost use Rattle.std.specs.Prelude.{◌≡◌};

use sw_topo::Port;

/// The state of an input of a switch (ECSS-E-ST-50-12C, network layer: wormhole routing).
#[derive(Clone, Copy, Debug, PartialEq, Eq)]
pub enum Input {
    /// It waits for a packet's leading byte.
    Idle,
    /// It passes a packet on to the output of that port.
    Held(Port),
    /// It discards a packet whose leading byte names no port with a link.
    Spilling,
}

impl Input {
    ghost use Rattle.sw_switch.specs.Conditions.{holds};

    /// Does it pass a packet on to that output?
    pub fn holds(self, out: Port) -> bool
        ensures { result ≡ holds out self }
    {
        match self {
            Input::Held(held) => held.number() == out.number(),
            Input::Idle | Input::Spilling => false,
        }
    }
}
