//! Which steps of a switch are possible.
ghost use Rattle.std.specs.Prelude.{◌≡◌, ◌↔◌, ◌⊎◌, ℕ, ◌<◌, IsTrue, IsBitSet};
ghost use Rattle.sw_switch.specs.declared.input.Input.{Input};

use crate::cell::SwitchCell;
use crate::input::Input;
use sw_arb::Arbiter;
use sw_char::NChar;
use sw_route::Routing;
use sw_topo::{Port, PortSet};

impl<R: Routing, A: Arbiter> SwitchCell<R, A> {
    ghost use Rattle.sw_switch.specs.Cell.{input_at, front_at};
    ghost use Rattle.sw_switch.specs.Conditions.{AreAsking, Asks, CanGrant, CanDrop, CanForward, CanSpill, CanIssue, CanStep, Names, IsDropped};

    /// The input is idle, and a packet's leading byte at its front names the output.
    fn asks_for(&self, input: Port, out: Port) -> bool
        ensures { IsTrue result ↔ ((input_at self.now input ≡ Input.Idle)
            × Names R.answer self.now.routes (front_at self.now input) out) }
    {
        match (self.input(input), self.front(input)) {
            (Input::Idle, Some(NChar::Data(byte))) => self.look(byte).ports.contains(out),
            _ => false,
        }
    }

    /// The linked inputs that are idle, and at whose front a packet's leading byte names the output.
    fn asking(&self, out: Port) -> PortSet
        ensures { (input : ℕ) → IsBitSet result input ↔ Asks R.answer self.now out input }
    {
        let mut asking = PortSet::EMPTY;
        let waiting = self.waiting();
        let mut from = 0;
        while let Some(input) = waiting.next_from(from) {
            if self.asks_for(input, out) {
                asking = asking.with(input);
            }
            from = input.number() + 1;
        }
        asking
    }

    /// The inputs to which the output can be granted. There are none while it is held
    /// (ECSS-E-ST-50-12C, network layer: wormhole routing).
    #[inline(never)]
    pub fn asks(&self, out: Port) -> PortSet
        ensures { AreAsking R.answer self.now out result }
    {
        if !self.is_linked(out) {
            return PortSet::EMPTY;
        }
        let asking = self.asking(out);
        if asking.is_empty() || self.is_held(out) {
            return PortSet::EMPTY;
        }
        asking
    }

    fn is_asked_for(&self, out: Port) -> bool
        ensures { IsTrue result ↔ ((input : ℕ) × CanGrant R.answer self.now out input) }
    {
        match self.asks(out).first() {
            Some(_) => true,
            None => false,
        }
    }

    /// Is the front of the input dropped: an end marker with no packet before it, or a packet that
    /// goes nowhere?
    #[inline(always)]
    pub fn can_drop(&self, input: Port) -> bool
        ensures { IsTrue result ↔ CanDrop R.answer self.now input }
    {
        match (self.input(input), self.front(input)) {
            (Input::Idle, Some(NChar::Data(byte))) => {
                self.look(byte).ports.meet(self.linked()).is_empty()
            }
            (Input::Idle, Some(NChar::Eop | NChar::Eep)) => true,
            _ => false,
        }
    }

    /// Does the input hold an output that has credit, and is there a character to pass on
    /// (ECSS-E-ST-50-12C, network layer: wormhole routing)?
    pub fn can_forward(&self, input: Port) -> bool
        ensures { IsTrue result ↔ CanForward self.now input }
    {
        match self.input(input) {
            Input::Held(out) => self.credit(out) > 0 && self.has_front(input),
            Input::Idle | Input::Spilling => false,
        }
    }

    /// Does the input discard a packet of which there is a character?
    pub fn can_spill(&self, input: Port) -> bool
        ensures { IsTrue result ↔ CanSpill self.now input }
    {
        match self.input(input) {
            Input::Spilling => self.has_front(input),
            Input::Idle | Input::Held(_) => false,
        }
    }

    /// Can an FCT leave for the channel that ends at the port (ECSS-E-ST-50-12C, data link layer:
    /// flow control)?
    pub fn can_issue(&self, input: Port) -> bool
        ensures { IsTrue result ↔ CanIssue self.now input }
    {
        self.is_linked(input) && self.received[input.number() as usize].can_issue()
    }

    /// Is some step of the port possible, apart from what comes from its link?
    pub fn enabled(&self, port: Port) -> bool
        ensures { IsTrue result ↔ CanStep R.answer self.now port }
    {
        self.can_issue(port)
            || self.can_drop(port)
            || self.can_forward(port)
            || self.can_spill(port)
            || self.is_asked_for(port)
    }
}
