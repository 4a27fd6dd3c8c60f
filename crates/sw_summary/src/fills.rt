//! How full the receive buffers of a network get.
ghost use Rattle.std.specs.Prelude.{◌≡◌, ◌<◌, ◌*◌, IfOk, length, map, option_map};
ghost use Rattle.sw_summary.specs.Fills.{AreFillsOrNone};
ghost use Rattle.sw_net.specs.Delivery.{IsBuffered};
ghost use Rattle.sw_summary.specs.NotedFills.{MakesOrNot};
ghost use Rattle.sw_machine.specs.Model.{network_of};
ghost use Rattle.sw_machine.specs.StepValues.{machine_step};
ghost use Rattle.sw_net.specs.New.{IsNewNet};

use std::alloc::{AllocError, Global};
use sw_arb::Policy;
use sw_config::Network;
use sw_machine::{Move, Step};
use sw_net::{Net, NetFault, SwitchRoutes, declared_net};
use sw_topo::{Chan, LinkEnd};

/// How many characters the buffer of the channel holds.
fn fill_of(net: &Net<'_, SwitchRoutes<'_>, Policy>, channel: Chan) -> u16
    requires { channel < 2 * length net.now.declared.links }
    ensures { IsBuffered net.now channel result }
{
    let network = net.network();
    let capacity = network.capacity(channel);
    let numbers = net.numbers(LinkEnd::new(channel.partner().number()));
    let used = capacity.saturating_sub(numbers.room);
    used.saturating_sub(u16::from(numbers.outstanding))
}

/// Makes the step, if it is possible: whether it is. Where a character has arrived, the fill is greater then, if need be.
fn make(
    alloc: Global,
    net: &mut Net<'_, SwitchRoutes<'_>, Policy>,
    step: &Step,
    fills: &mut [u16],
) -> Result<bool, AllocError>
    requires { length fills.old ≡ 2 * length net.old.declared.links }
    ensures network { net.new.declared ≡ net.old.declared }
    ensures long { length fills.new ≡ length fills.old }
    ensures made { IfOk result (λ made. MakesOrNot net.old fills.old (machine_step step.now) made net.new fills.new) }
{
    match net.step(alloc, step) {
        Ok(()) => {
            let Step::Move(Move::Arrive(channel)) = step else {
                return Ok(true);
            };
            let number = usize::from(channel.number());
            if number >= fills.len() {
                return Ok(true);
            }
            fills[number] = fills[number].max(fill_of(net, *channel));
            Ok(true)
        }
        Err(NetFault::NotEnabled) => Ok(false),
        Err(NetFault::NotInFlow) => Ok(false),
        Err(NetFault::Memory) => Err(AllocError),
    }
}

/// The fills of the new network's channels while the steps are made; none where one of them is not possible.
fn noted_fills(
    alloc: Global,
    network: &Network,
    net: &mut Net<'_, SwitchRoutes<'_>, Policy>,
    steps: &[Step],
) -> Result<Option<Vec<u16>>, AllocError>
    requires { IsNewNet network.now net.old }
    ensures { IfOk result (λ o. AreFillsOrNone (network_of network.now) (map machine_step steps.now) (option_map (λ v. v.items) o)) }
{
    let mut fills = vec![in alloc; 0u16; usize::from(network.channels())]?;
    for step in steps {
        if !make(alloc, net, step, &mut fills)? {
            return Ok(None);
        }
    }
    Ok(Some(fills))
}

/// The greatest fill of the receive buffer of each channel while the steps are made one after another from the empty network on; none
/// where one of them is not possible.
///
/// # Errors
///
/// There is no memory for the network, or for what a step stores.
pub fn greatest_fills(
    alloc: Global,
    network: &Network,
    steps: &[Step],
) -> Result<Option<Vec<u16>>, AllocError>
    ensures { IfOk result (λ o. AreFillsOrNone (network_of network.now) (map machine_step steps.now) (option_map (λ v. v.items) o)) }
{
    let mut net = declared_net(alloc, network)?;
    let fills = noted_fills(alloc, network, &mut net, steps);
    net.discard();
    fills
}
