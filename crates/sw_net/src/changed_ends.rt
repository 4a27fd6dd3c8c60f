//! Whose numbers a step changes.
ghost use Rattle.std.specs.Prelude.{◌≡◌, ◌<◌, ℕ, Some, length};
ghost use Rattle.sw_flow.specs.Places.{end_of, ends_of};
ghost use Rattle.sw_machine.specs.State.{State};
ghost use Rattle.sw_machine.specs.declared.input.InputState.TheVariants.{Held};
ghost use Rattle.sw_machine.specs.Model.{network_of};
ghost use Rattle.sw_machine.specs.StepValues.{machine_step};
ghost use Rattle.sw_net.specs.Changing.{IsChanged, IsEndOf};
ghost use Rattle.sw_topo.specs.Wiring.{out_of, partner};

use crate::net::Net;
use sw_arb::Arbiter;
use sw_config::Network;
use sw_machine::{Move, Step};
use sw_route::Routing;
use sw_switch::Input;
use sw_topo::{Chan, LinkEnd, PlaceEnd, Port};

/// The link end that receives on the channel.
pub(crate) fn receiver(channel: Chan) -> LinkEnd
    ensures { result ≡ partner channel }
{
    LinkEnd::new(channel.partner().number())
}

/// The link end that sends at the port of the switch, if it has a link.
fn starter(network: &Network, w: u16, port: Port) -> Option<LinkEnd>
    requires { w < length network.now.switches }
    ensures { result ≡ out_of (ends_of network.now) w port }
{
    match network.topology().out_of(w, port) {
        Some(out) => Some(LinkEnd::new(out.number())),
        None => None,
    }
}

/// The link end of the node of that number, if there is one.
fn node_end(network: &Network, node: u16) -> Option<LinkEnd>
    ensures { IsEndOf (network_of network.now) node result }
{
    if node >= network.nodes() {
        return None;
    }
    let out = network.topology().out(node);
    Some(LinkEnd::new(out.number()))
}

/// The link end whose numbers the step changes, apart from the output that it passes a character on
/// to.
#[inline(always)]
fn changed_end(network: &Network, step: &Step) -> Option<LinkEnd>
    ensures { IsChanged (network_of network.now) (machine_step step.now) result }
{
    match step {
        Step::Move(step) => match step {
            Move::FctIn(channel) => Some(LinkEnd::new(channel.number())),
            Move::Fct(channel)
            | Move::Arrive(channel)
            | Move::Grant(_, channel)
            | Move::Drop(channel)
            | Move::Spill(channel)
            | Move::Forward(channel) => Some(receiver(*channel)),
            Move::Emit(node) | Move::Accept(node) => node_end(network, *node),
            Move::Reply(_) => None,
        },
        Step::Begin { .. } => None,
    }
}

impl<'n, R: Routing, A: Arbiter> Net<'n, R, A> {
    ghost use Rattle.sw_net.specs.Changing.{ChangesOnly};
    ghost use Rattle.sw_net.specs.Net.{IsNetState};

    /// The output that the input where the channel ends holds, if it holds one (ECSS-E-ST-50-12C,
    /// network layer: wormhole routing).
    fn held_output(&self, channel: Chan) -> Option<LinkEnd>
        ensures { (s : State) → IsNetState self.now s → channel < (network_of self.now.declared).channels → (d : ℕ) → s.input channel ≡ Held d → result ≡ Some d }
    {
        let network = self.network();
        if channel.number() >= network.channels() {
            return None;
        }
        match network.topology().end_of(channel) {
            PlaceEnd::Node(_) => None,
            PlaceEnd::Switch(w, port) => match self.switch(w).input(port) {
                Input::Held(held) => starter(network, w, held),
                Input::Idle => None,
                Input::Spilling => None,
            },
        }
    }

    /// The link ends whose numbers the step changes, if it is possible: those of no others change.
    /// A character that is passed on changes the credit of the output, and the room of the input;
    /// each other step the numbers of one link end at most (ECSS-E-ST-50-12C, data link layer: flow
    /// control).
    #[inline(always)]
    pub fn changed_ends(&self, step: &Step) -> (Option<LinkEnd>, Option<LinkEnd>)
        ensures { ChangesOnly self.now (machine_step step.now) result }
    {
        let end = changed_end(self.network(), step);
        match step {
            Step::Move(step) => match step {
                Move::Forward(channel) => (end, self.held_output(*channel)),
                _ => (end, None),
            },
            Step::Begin { .. } => (end, None),
        }
    }
}
