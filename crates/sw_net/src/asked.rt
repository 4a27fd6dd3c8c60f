//! What can be asked of a network.
ghost use Rattle.std.specs.Prelude.{◌≡◌, ◌<◌, ◌*◌, IfOk, Some, length, slice_get};
ghost use Rattle.sw_flow.specs.Places.{ends_of};
ghost use Rattle.sw_machine.specs.Runs.{CameOut};
ghost use Rattle.sw_machine.specs.State.{State};
ghost use Rattle.sw_machine.specs.Model.{network_of};
ghost use Rattle.sw_topo.specs.Checked.{IsIn};

use crate::net::Net;
use std::alloc::{AllocError, Global};
use sw_arb::Arbiter;
use sw_cell::{node, switch};
use sw_char::Packet;
use sw_config::Network;
use sw_node::NodeCell;
use sw_route::Routing;
use sw_switch::SwitchCell;
use sw_topo::{LinkEnd, PlaceEnd};

impl<'n, R: Routing, A: Arbiter> Net<'n, R, A> {
    ghost use Rattle.sw_net.specs.Asked.{CanStep, IsFirst, IsQuietNet};
    ghost use Rattle.sw_net.specs.Net.{IsNet, IsNetState};

    /// The network whose machine this is.
    pub fn network(&self) -> &'n Network
        ensures network { result.now ≡ self.now.declared }
        ensures sound { IsNet R.answer A.ports self.now }
    {
        self.network
    }

    pub(crate) fn node(&self, n: u16) -> &NodeCell
        requires { n < length self.now.declared.nodes }
        ensures { slice_get self.now.nodes n ≡ Some result.now }
    {
        &self.nodes[n as usize]
    }

    pub(crate) fn switch(&self, w: u16) -> &SwitchCell<R, A>
        requires { w < length self.now.declared.switches }
        ensures { slice_get self.now.switches w ≡ Some result.now }
    {
        &self.switches[w as usize]
    }

    /// Where the link end stands.
    #[inline(always)]
    pub fn place_of(&self, end: LinkEnd) -> PlaceEnd
        requires { end < 2 * length self.now.declared.links }
        ensures starts { slice_get (ends_of self.now.declared) end ≡ Some result }
        ensures inside { IsIn (length self.now.declared.nodes) (length self.now.declared.switches) result }
        ensures within { end < (network_of self.now.declared).channels }
        ensures sound { IsNet R.answer A.ports self.now }
    {
        self.network().topology().start_of(end.sends())
    }

    /// Whether some step that belongs to the link end is possible, other than to begin a packet.
    pub fn can_step(&self, end: LinkEnd) -> bool
        requires { end < 2 * length self.now.declared.links }
        ensures { CanStep self.now end result }
    {
        match self.place_of(end) {
            PlaceEnd::Node(n) => node::can_step(self.network, n, self.node(n), &self.wires),
            PlaceEnd::Switch(w, _) => {
                switch::can_step(self.network, w, end, self.switch(w), &self.wires)
            }
        }
    }

    /// The link end of least number at which some step is possible, other than to begin a packet.
    /// None where no such step is possible in the whole network.
    pub fn first_enabled(&self) -> Option<LinkEnd>
        ensures { IsFirst self.now result }
    {
        for number in 0..self.network().channels() {
            let end = LinkEnd::new(number);
            if self.can_step(end) {
                return Some(end);
            }
        }
        None
    }

    /// Whether no step is possible, other than to begin a packet.
    pub fn quiet(&self) -> bool
        ensures { IsQuietNet self.now result }
    {
        self.first_enabled().is_none()
    }

    /// How many replies the node owes: those that wait, and the one that it sends.
    pub fn owed(&self, node: u16) -> usize
        requires { node < length self.now.declared.nodes }
        ensures { (s : State) → IsNetState self.now s → result ≡ s.owed node }
    {
        self.node(node).owed()
    }

    /// The whole packets that came out at the node, in their order.
    ///
    /// # Errors
    ///
    /// There is no memory for the copies of the packets.
    pub fn came_out(&self, alloc: Global, node: u16) -> Result<Vec<Packet>, AllocError>
        requires { node < length self.now.declared.nodes }
        ensures { IfOk result (λ packets. (s : State) → IsNetState self.now s → CameOut s node packets.items) }
    {
        self.node(node).came_out(alloc)
    }
}
