//! Which step of a link end is possible.
ghost use Rattle.std.specs.Prelude.{◌<◌, ◌*◌, IfNone, IfSome, false, length, true};
ghost use Rattle.sw_machine.specs.StepValues.{machine_step};

use crate::net::Net;
use sw_arb::Arbiter;
use sw_machine::{Move, Step};
use sw_route::Routing;
use sw_topo::{LinkEnd, PlaceEnd};

impl<'n, R: Routing, A: Arbiter> Net<'n, R, A> {
    ghost use Rattle.sw_net.specs.Asked.{CanStep};
    ghost use Rattle.sw_net.specs.Making.{IsMoveOf};
    ghost use Rattle.sw_net.specs.Possible.{Tells};

    /// A step that belongs to the link end and is possible, other than to begin a packet. Which one,
    /// where there are several, is left open. None where the link end has no such step.
    #[inline(always)]
    pub fn possible_at(&self, end: LinkEnd) -> Option<Step>
        requires { end < 2 * length self.now.declared.links }
        ensures some { IfSome result (λ step. IsMoveOf self.now end (machine_step step)) }
        ensures possible { IfSome result (λ step. Tells self.now (machine_step step) true) }
        ensures none { IfNone result (CanStep self.now end false) }
    {
        let network = self.network();
        let place = self.place_of(end);
        match self.first_ready(end, place) {
            Some(step) => Some(step),
            None => {
                let PlaceEnd::Switch(w, out) = &place else {
                    return None;
                };
                let Some(port) = self.switch(*w).asks(*out).first() else {
                    return None;
                };
                let back = network.topology().out_of(*w, port).unwrap();
                Some(Step::Move(Move::Grant(end.sends(), back.partner())))
            }
        }
    }
}
