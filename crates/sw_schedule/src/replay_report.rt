//! Whether a network is locked up.
ghost use Rattle.std.specs.Prelude.{◌↔◌, IsTrue};
ghost use Rattle.sw_net.specs.Delivery.{IsUndelivered};
ghost use Rattle.sw_schedule.specs.Nets.{TellsLockedUp};

use sw_arb::Policy;
use sw_net::{Net, SwitchRoutes};

/// Whether the network is locked up, where so many characters are undelivered.
pub(crate) fn is_locked_up(net: &Net<'_, SwitchRoutes<'_>, Policy>, remaining: u64) -> bool
    requires { IsUndelivered net.now remaining }
    ensures { TellsLockedUp net.now result }
{
    net.quiet() && remaining > 0
}
