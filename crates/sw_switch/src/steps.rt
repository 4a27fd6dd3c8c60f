//! The steps of a switch.
ghost use Rattle.std.specs.Prelude.{◌≡◌, ◌<◌, ◌↔◌, ℕ, length, Some, IsNone, IfNone, IfSome};
ghost use Rattle.sw_link.specs.Ends.{asked};
ghost use Rattle.sw_switch.specs.declared.input.Input.{Input};

use crate::cell::SwitchCell;
use crate::input::Input;
use sw_arb::Arbiter;
use sw_char::NChar;
use sw_route::Routing;
use sw_topo::Port;

impl<R: Routing, A: Arbiter> SwitchCell<R, A> {
    ghost use Rattle.sw_switch.specs.Cell.{input_at, end_at, front_at};
    ghost use Rattle.sw_switch.specs.Conditions.{CanGrant, CanDrop, CanForward, CanSpill, CanIssue};
    ghost use Rattle.sw_switch.specs.Changes.{granted_to, Grants, passed, forwarded, dropped, with_end};

    /// Grants the output to that input, which has to ask for it (ECSS-E-ST-50-12C, network layer:
    /// wormhole routing). The output's arbiter stays as it is.
    pub fn grant_to(&mut self, out: Port, input: Port)
        requires { CanGrant R.answer self.old out input }
        ensures { self.new ≡ granted_to R.answer self.old out input }
    {
        match self.front(input) {
            Some(NChar::Data(byte)) if self.look(byte).delete => {
                self.take(input);
            }
            _ => {}
        }
        self.set_input(input, Input::Held(out));
    }

    /// Grants the output to the input that its arbiter picks among those that ask, and `None` if
    /// none does (ECSS-E-ST-50-12C, network layer: arbitration).
    pub fn grant(&mut self, out: Port) -> Option<Port>
        ensures none { IsNone result ↔ ((input : ℕ) → ¬ CanGrant R.answer self.old out input) }
        ensures kept { IfNone result (self.new ≡ self.old) }
        ensures some { IfSome result (Grants R.answer A.policy self.old self.new out) }
    {
        let asking = self.asks(out);
        asking.first()?;
        let picked = self.pick(out, asking);
        self.grant_to(out, picked);
        Some(picked)
    }

    /// The front of the input leaves, and an end marker makes the input idle.
    #[inline(always)]
    fn pass_front(&mut self, input: Port) -> NChar
        requires { 0 < length (end_at self.old input).buffer }
        ensures front { front_at self.old input ≡ Some result }
        ensures after { self.new ≡ passed self.old input }
    {
        let character = self.take(input);
        if matches!(character, NChar::Eop | NChar::Eep) {
            self.set_input(input, Input::Idle);
        }
        character
    }

    /// Passes the front of the input on to the output that it holds: that output, and the
    /// character, which goes to the wire there (ECSS-E-ST-50-12C, network layer: wormhole routing).
    /// `can_forward` has to hold.
    #[inline(always)]
    pub fn forward(&mut self, input: Port) -> (Port, NChar)
        requires { CanForward self.old input }
        ensures out { input_at self.old input ≡ Input.Held result.0 }
        ensures character { front_at self.old input ≡ Some result.1 }
        ensures after { self.new ≡ forwarded self.old input result.0 }
    {
        match self.input(input) {
            Input::Held(out) => {
                let character = self.pass_front(input);
                self.credits[out.number() as usize].send();
                (out, character)
            }
            Input::Idle | Input::Spilling => unreachable!(),
        }
    }

    /// Drops an end marker at the front of the input, or begins to discard the packet there.
    /// `can_drop` has to hold.
    pub fn drop_front(&mut self, input: Port)
        requires { CanDrop R.answer self.old input }
        ensures { self.new ≡ dropped self.old input }
    {
        match self.front(input) {
            Some(NChar::Data(_)) => self.set_input(input, Input::Spilling),
            Some(NChar::Eop | NChar::Eep) | None => {
                self.take(input);
            }
        }
    }

    /// Discards the front of the input. `can_spill` has to hold.
    pub fn spill(&mut self, input: Port)
        requires { CanSpill self.old input }
        ensures { self.new ≡ passed self.old input }
    {
        let _ = self.pass_front(input);
    }

    /// An FCT leaves for the channel that ends at the port (ECSS-E-ST-50-12C, data link layer: flow
    /// control). `can_issue` has to hold.
    pub fn issue(&mut self, input: Port)
        requires { CanIssue self.old input }
        ensures { self.new ≡ with_end self.old input (asked (end_at self.old input)) }
    {
        self.received[input.number() as usize].issue();
    }
}
