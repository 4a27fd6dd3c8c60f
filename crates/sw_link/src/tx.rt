//! The transmitting end of a channel.
ghost use Rattle.std.specs.Prelude.{◌≡◌, ℕ, ◌<◌, ◌≤◌, ◌+◌, ◌-◌};

use crate::flow_control::ASKED_BY_FCT;
use std::marker::Model;

/// The transmitting end of a channel, seen as its credit: how many N-Chars it may still send
/// (ECSS-E-ST-50-12C, data link layer: flow control).
#[derive(Drop)]
pub struct TxEnd {
    credit: u8,
}

impl Model for TxEnd {
    ghost Value = { ℕ };

    ghost view = { λ e. e.credit };

    ghost invariant = { λ e. e.credit ≤ 56 };
}

impl TxEnd {
    ghost use Rattle.sw_link.specs.Ends.{granted, spent};

    /// An end that was granted nothing yet.
    pub fn new() -> TxEnd
        ensures { result ≡ 0 }
    {
        TxEnd { credit: 0 }
    }

    /// How many N-Chars may be sent: 0 to 56 (ECSS-E-ST-50-12C, data link layer: flow control).
    pub fn credit(&self) -> u8
        ensures value { result ≡ self.now }
        ensures most { result ≤ 56 }
    {
        self.credit
    }

    /// An N-Char is put on the wire (ECSS-E-ST-50-12C, data link layer: flow control).
    pub fn send(&mut self)
        requires { 0 < self.old }
        ensures { self.new ≡ spent self.old }
    {
        self.credit -= 1;
    }

    /// An FCT is received: eight more N-Chars may be sent (ECSS-E-ST-50-12C, data link layer: flow
    /// control).
    pub fn fct_in(&mut self)
        requires { self.old ≤ 48 }
        ensures { self.new ≡ granted self.old }
    {
        self.credit += ASKED_BY_FCT;
    }
}
