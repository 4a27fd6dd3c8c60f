//! What a switch has at a port.
ghost use Rattle.std.specs.Prelude.{◌≡◌, ◌++◌};

use crate::cell::SwitchCell;
use sw_arb::Arbiter;
use sw_char::NChar;
use sw_route::Routing;
use sw_topo::Port;

impl<R: Routing, A: Arbiter> SwitchCell<R, A> {
    ghost use Rattle.sw_switch.specs.Cell.{end_at};

    /// The N-Chars in the port's receive buffer, the oldest first: those of the first slice, then
    /// those of the second.
    pub fn buffer(&self, input: Port) -> (&[NChar], &[NChar])
        ensures { result.0.now ++ result.1.now ≡ (end_at self.now input).buffer }
    {
        let index = input.number() as usize;
        self.received[index].buffer()
    }
}
