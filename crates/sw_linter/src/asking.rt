//! A flow that is answered.
ghost use Rattle.std.specs.Prelude.{◌≡◌};
ghost use Rattle.sw_linter.specs.Marks.{is_same_wait, waits_at};

use sw_config::Network;

/// A flow with a reply, and the target where its commands may have to wait: none where it always takes what comes.
#[derive(Clone, Copy)]
pub(crate) struct Asking {
    pub(crate) number: u16,
    pub(crate) waits_at: Option<u16>,
}

/// The node, if commands that come to it may have to wait until it has sent a reply.
pub(crate) fn waits_at(network: &Network, node: u16) -> Option<u16>
    ensures { result ≡ waits_at network.now node }
{
    if network.may_make_wait(node) {
        Some(node)
    } else {
        None
    }
}

/// Do commands wait at one target, or none of them at all?
pub(crate) fn is_same_wait(one: Option<u16>, other: Option<u16>) -> bool
    ensures { result ≡ is_same_wait one other }
{
    match (one, other) {
        (None, None) => true,
        (Some(one), Some(other)) => one == other,
        _ => false,
    }
}
