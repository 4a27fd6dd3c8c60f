//! The steps other than beginnings.
ghost use Rattle.std.specs.Prelude.{◌≡◌, ◌<◌, ◌*◌, IfNone, IfOk, IfSome, OnErr, length, true};
ghost use Rattle.sw_history.specs.Enabled.{CanStepBelow, IsChosen, IsNth};
ghost use Rattle.sw_history.specs.Way.{CountsMove, MovesOne};
ghost use Rattle.sw_net.specs.Asked.{IsQuietNet};

use std::alloc::{AllocError, Global};
use sw_arb::Arbiter;
use sw_net::{Net, Unanswered};
use sw_route::Routing;
use sw_topo::LinkEnd;

/// How many link ends can step.
pub(crate) fn count_enabled<R: Routing, A: Arbiter>(net: &Net<'_, R, A>) -> usize
    ensures { CanStepBelow net.now (2 * length net.now.declared.links) result }
{
    let mut count: usize = 0;
    for number in 0..net.network().channels() {
        if net.can_step(LinkEnd::new(number)) {
            count += 1;
        }
    }
    count
}

/// The link end that can step and has so many before it that can.
fn nth_enabled<R: Routing, A: Arbiter>(net: &Net<'_, R, A>, index: usize) -> Option<LinkEnd>
    ensures within { IfSome result (λ e. e < 2 * length net.now.declared.links) }
    ensures nth { IsNth net.now index result }
{
    let mut before: usize = 0;
    for number in 0..net.network().channels() {
        let end = LinkEnd::new(number);
        if net.can_step(end) {
            if before == index {
                return Some(end);
            }
            before += 1;
        }
    }
    None
}

/// The same, or the first that can step where there are not so many.
fn enabled_at<R: Routing, A: Arbiter>(net: &Net<'_, R, A>, index: usize) -> Option<LinkEnd>
    ensures within { IfSome result (λ e. e < 2 * length net.now.declared.links) }
    ensures chosen { IfSome result (IsChosen net.now index) }
    ensures none { IfNone result (IsQuietNet net.now true) }
{
    let _network = net.network();
    match nth_enabled(net, index) {
        Some(end) => Some(end),
        None => net.first_enabled(),
    }
}

/// One of the link ends that can step makes a step: that one with so many before it that can, or the
/// first. The answer is no where none can. What is unanswered is counted.
pub(crate) fn move_one<R: Routing, A: Arbiter>(
    alloc: Global,
    net: &mut Net<'_, R, A>,
    index: usize,
    unanswered: &mut Unanswered,
) -> Result<bool, AllocError>
    ensures network { net.new.declared ≡ net.old.declared }
    ensures moves { IfOk result (λ made. (moved : MovesOne net.old index made net.new) × CountsMove net.old unanswered.old index made net.new unanswered.new moved) }
    ensures refused { OnErr result (net.new ≡ net.old) }
{
    let _network = net.network();
    let Some(end) = enabled_at(net, index) else {
        return Ok(false);
    };
    match unanswered.step_of(alloc, net, end) {
        Ok(made) => match made {
            Some(_) => Ok(true),
            None => unreachable!(),
        },
        Err(refused) => Err(refused),
    }
}
