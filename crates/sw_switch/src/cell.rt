//! What a switch keeps of its ports.
ghost use Rattle.std.specs.Prelude.{◌≡◌, ℕ, ◌<◌, ◌≤◌, ◌≢◌, ◌↔◌, length, slice_get, slice_set, Some, IsTrue, IsBitSet};
ghost use Rattle.sw_arb.specs.Arbiters.{IsWithin};
ghost use Rattle.sw_link.specs.Ends.{arrived, granted};
ghost use Rattle.sw_switch.specs.declared.input.Input.{Input};

use crate::input::Input;
use std::marker::Model;
use sw_arb::Arbiter;
use sw_char::NChar;
use sw_link::{RxEnd, TxEnd};
use sw_route::{Look, Routing};
use sw_topo::{Port, PortSet};

/// A wormhole routing switch with a link at some of its ports (ECSS-E-ST-50-12C, network layer:
/// wormhole routing). Each linked output has an arbiter.
#[derive(Drop)]
pub struct SwitchCell<R: Routing, A: Arbiter> {
    pub(crate) routes: R,
    pub(crate) linked: PortSet,
    /// Each idle input with a character in its buffer, and maybe others.
    pub(crate) waiting: PortSet,
    // these go by port, 0 to 31
    pub(crate) credits: Vec<TxEnd>,
    pub(crate) inputs: Vec<Input>,
    pub(crate) received: Vec<RxEnd>,
    pub(crate) arbiters: Vec<Option<A>>,
}

impl<R: Routing, A: Arbiter> Model for SwitchCell<R, A> {
    ghost use Rattle.std.specs.Prelude.{◌*◌};
    ghost use Rattle.sw_switch.specs.Cell.{Cell, HasWaiting, IsCell, cell_of};

    ghost Value = { Cell R A };

    ghost view = { λ c. cell_of c.routes c.linked c.credits.items c.inputs.items c.received.items c.arbiters.items };

    ghost invariant = { λ c. IsCell A.ports (cell_of c.routes c.linked c.credits.items c.inputs.items c.received.items c.arbiters.items)
        × HasWaiting c.waiting c.inputs.items c.received.items };
}

/// The set with the port, or without it.
fn with_or_without(set: PortSet, port: Port, is_in: bool) -> PortSet
    ensures own { IsTrue is_in → IsBitSet result port }
    ensures others { (p : ℕ) → p ≢ port → IsBitSet set p → IsBitSet result p }
{
    if is_in {
        set.with(port)
    } else {
        set.without(port)
    }
}

impl<R: Routing, A: Arbiter> SwitchCell<R, A> {
    ghost use Rattle.sw_switch.specs.Cell.{IsCell, credit_at, input_at, end_at, front_at};
    ghost use Rattle.sw_switch.specs.Changes.{without_front, with_input, with_credit, with_end};
    ghost use Rattle.sw_switch.specs.Conditions.{is_held};

    /// The credit of the channel that starts at the port: 0 to 56 (ECSS-E-ST-50-12C, data link
    /// layer: flow control).
    pub fn credit(&self, out: Port) -> u8
        ensures { result ≡ credit_at self.now out }
    {
        self.credits[out.number() as usize].credit()
    }

    /// How many N-Chars the port's receiving end asked for that did not arrive yet: 0 to 56
    /// (ECSS-E-ST-50-12C, data link layer: flow control).
    pub fn outstanding(&self, input: Port) -> u8
        ensures { result ≡ (end_at self.now input).outstanding }
    {
        self.received[input.number() as usize].outstanding()
    }

    /// How many N-Chars are in the port's buffer.
    pub fn buffered(&self, input: Port) -> usize
        ensures { result ≡ length (end_at self.now input).buffer }
    {
        let index = input.number() as usize;
        self.received[index].len()
    }

    /// What the port's input does (ECSS-E-ST-50-12C, network layer: wormhole routing).
    pub fn input(&self, input: Port) -> Input
        ensures { result ≡ input_at self.now input }
    {
        self.inputs[input.number() as usize]
    }

    /// The N-Char at the front of the port's buffer.
    pub fn front(&self, input: Port) -> Option<NChar>
        ensures { result ≡ front_at self.now input }
    {
        self.received[input.number() as usize].front()
    }

    /// Does the port have a link?
    pub(crate) fn is_linked(&self, port: Port) -> bool
        ensures { IsTrue result ↔ IsBitSet self.now.linked port }
    {
        self.linked.contains(port)
    }

    /// What the byte names.
    pub(crate) fn look(&self, byte: u8) -> Look
        ensures { result ≡ R.answer self.now.routes byte }
    {
        self.routes.look(byte)
    }

    /// Does some input pass a packet on to that output?
    pub(crate) fn is_held(&self, out: Port) -> bool
        ensures { result ≡ is_held self.now out }
    {
        for input in &self.inputs {
            if input.holds(out) {
                return true;
            }
        }
        false
    }

    /// Is there a character in the port's buffer?
    pub(crate) fn has_front(&self, input: Port) -> bool
        ensures { IsTrue result ↔ (0 < length (end_at self.now input).buffer) }
    {
        self.received[input.number() as usize].len() > 0
    }

    /// The linked inputs that are idle and have a character in their buffer, and maybe others.
    pub(crate) fn waiting(&self) -> PortSet
        ensures linked { (p : ℕ) → IsBitSet result p → IsBitSet self.now.linked p }
        ensures all { (p : ℕ) → IsBitSet self.now.linked p → input_at self.now p ≡ Input.Idle → 0 < length (end_at self.now p).buffer → IsBitSet result p }
    {
        self.waiting.meet(self.linked)
    }

    pub(crate) fn set_input(&mut self, port: Port, input: Input)
        ensures { self.new ≡ with_input self.old port input }
    {
        let waits = matches!(input, Input::Idle) && self.has_front(port);
        self.inputs[port.number() as usize] = input;
        self.waiting = with_or_without(self.waiting, port, waits);
    }

    #[inline(always)]
    pub(crate) fn take(&mut self, input: Port) -> NChar
        requires { 0 < length (end_at self.old input).buffer }
        ensures front { front_at self.old input ≡ Some result }
        ensures after { self.new ≡ without_front self.old input }
    {
        self.received[input.number() as usize].take()
    }

    /// An N-Char arrives at the port, which has to have some outstanding.
    #[inline(always)]
    pub fn arrive(&mut self, input: Port, character: NChar)
        requires { 0 < (end_at self.old input).outstanding }
        ensures { self.new ≡ with_end self.old input (arrived character (end_at self.old input)) }
    {
        let waits = matches!(self.input(input), Input::Idle);
        self.received[input.number() as usize].arrive(character);
        if waits {
            self.waiting = self.waiting.with(input);
        }
    }

    /// An FCT for the channel that starts at the port is received (ECSS-E-ST-50-12C, data link
    /// layer: flow control). The credit has to be at most 48.
    pub fn fct_in(&mut self, out: Port)
        requires { credit_at self.old out ≤ 48 }
        ensures { self.new ≡ with_credit self.old out (granted (credit_at self.old out)) }
    {
        self.credits[out.number() as usize].fct_in();
    }

    /// The output's arbiter picks one of the inputs that ask.
    pub(crate) fn pick(&mut self, out: Port, asking: PortSet) -> Port
        requires linked { IsBitSet self.old.linked out }
        requires asks { asking ≢ 0 }
        requires within { IsWithin asking self.old.linked }
        ensures member { IsBitSet asking result }
        ensures after { (a : A) × (b : A) × (slice_get self.old.arbiters out ≡ Some (Some a))
            × A.policy a asking result b
            × (self.new ≡ record self.old { arbiters = slice_set self.old.arbiters out (Some b) }) }
    {
        match &mut self.arbiters[out.number() as usize] {
            Some(arbiter) => arbiter.pick(asking),
            None => unreachable!(),
        }
    }

    /// The ports with a link.
    pub fn linked(&self) -> PortSet
        ensures value { result ≡ self.now.linked }
        ensures sound { IsCell A.ports self.now }
    {
        self.linked
    }
}
