//! Flows of which nothing new is to be noted.
ghost use Rattle.std.specs.Prelude.{◌<◌, ◌↔◌, IsTrue, length};
ghost use Rattle.sw_config.specs.Entries.{all_flows};
ghost use Rattle.sw_linter.specs.Alike.{AreAlike, IsLikeLast};

use sw_config::{Flow, Network};

/// Do both flows begin at one node with the same address, end at one node, and have replies alike?
fn are_alike(one: &Flow, other: &Flow) -> bool
    ensures { IsTrue result ↔ AreAlike one.now other.now }
{
    one.from() == other.from()
        && one.to() == other.to()
        && one.reply().is_some() == other.reply().is_some()
        && one.address() == other.address()
}

/// Is the flow like the one before it?
pub(crate) fn is_like_last(network: &Network, number: u16) -> bool
    requires { number < length (all_flows network.now) }
    ensures { IsTrue result ↔ IsLikeLast (all_flows network.now) number }
{
    number > 0 && are_alike(network.flow(number), network.flow(number - 1))
}
