//! A step that may be the next.
ghost use Rattle.std.specs.Prelude.{◌≡◌, ◌<◌, ◌*◌, IfNone, IfOk, IfSome, length};
ghost use Rattle.sw_history.specs.Next.{begin_of};
ghost use Rattle.sw_load.specs.History.{packet_of, packets_of};
ghost use Rattle.sw_machine.specs.Begun.{Begun};
ghost use Rattle.sw_machine.specs.Model.{network_of};
ghost use Rattle.sw_machine.specs.StepValues.{machine_step};

use crate::history::History;
use crate::record::beginning;
use std::alloc::{AllocError, Global};
use sw_arb::Arbiter;
use sw_load::LoadPacket;
use sw_machine::Step;
use sw_route::Routing;
use sw_topo::{LinkEnd, PlaceEnd};

impl<'n, R: Routing, A: Arbiter> History<'n, R, A> {
    ghost use Rattle.sw_history.specs.History.{IsNextAt};
    ghost use Rattle.sw_history.specs.Next.{IsIdle};

    /// The packet that may be begun as the next step that belongs to the link end.
    pub(crate) fn may_begin_at(&self, end: LinkEnd) -> Option<&LoadPacket>
        requires { end < 2 * length self.now.declared.links }
        ensures some { IfSome result (λ p. IsNextAt self.now end (begin_of (packet_of p.now))) }
        ensures none { IfNone result ((b : Begun) → IsNextAt self.now end (begin_of b) → ⊥) }
    {
        match self.net.place_of(end) {
            PlaceEnd::Node(node) => {
                if !self.net.can_begin(node) {
                    return None;
                }
                self.next_within(node)
            }
            PlaceEnd::Switch(_, _) => None,
        }
    }

    /// A step that belongs to the link end and may be the next. Which one, where there are several, is
    /// left open. None where the link end is idle.
    ///
    /// # Errors
    ///
    /// There is no memory for the step.
    pub fn choose(&self, alloc: Global, end: LinkEnd) -> Result<Option<Step>, AllocError>
        requires { end < 2 * length self.now.declared.links }
        ensures some { IfOk result (λ o. IfSome o (λ step. IsNextAt self.now end (machine_step step))) }
        ensures none { IfOk result (λ o. IfNone o (IsIdle (network_of self.now.declared) (packets_of self.now.load) self.now.steps end)) }
    {
        if let Some(step) = self.net.possible_at(end) {
            return Ok(Some(step));
        }
        match self.may_begin_at(end) {
            Some(packet) => Ok(Some(beginning(alloc, packet)?)),
            None => Ok(None),
        }
    }
}
