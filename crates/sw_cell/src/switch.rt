//! The steps of a switch. Each answers whether the step was possible; where it was not, nothing
//! changed.
ghost use Rattle.std.specs.Prelude.{◌≡◌, IfNone, IfSome, Some, slice_get};
ghost use Rattle.sw_cell.specs.Picks.{CannotGrant, GrantsPick};
ghost use Rattle.sw_cell.specs.Possible.{PortEnabled, PortHas, SwitchTells, step_at_port};
ghost use Rattle.sw_cell.specs.SwitchParts.{HasSwitchState, IsSwitchFor, SwitchMakes, port_at};
ghost use Rattle.sw_flow.specs.Places.{end_of, ends_of};
ghost use Rattle.sw_machine.specs.Network.{AtSwitch};
ghost use Rattle.sw_machine.specs.Steps.{Arrive, Drop, Fct, FctIn, Forward, Grant, Spill};
ghost use Rattle.sw_machine.specs.Model.{network_of};
ghost use Rattle.sw_link.specs.Between.{Between};

use sw_arb::Arbiter;
use sw_config::Network;
use sw_link::Wires;
use sw_route::Routing;
use sw_switch::SwitchCell;
use sw_topo::{Chan, LinkEnd, PlaceEnd, Port};

/// The port of switch `w` where the channel ends.
fn input(network: &Network, w: u16, channel: Chan) -> Port
    requires { (network_of network.now).end_of channel ≡ AtSwitch w }
    ensures { end_of network.now channel ≡ Some (PlaceEnd.Switch w result) }
{
    match network.topology().end_of(channel) {
        PlaceEnd::Switch(_, port) => port,
        PlaceEnd::Node(_) => unreachable!(),
    }
}

/// The port of switch `w` where the channel starts.
fn output(network: &Network, w: u16, channel: Chan) -> Port
    requires { (network_of network.now).start_of channel ≡ AtSwitch w }
    ensures { slice_get (ends_of network.now) channel ≡ Some (PlaceEnd.Switch w result) }
{
    match network.topology().start_of(channel) {
        PlaceEnd::Switch(_, port) => port,
        PlaceEnd::Node(_) => unreachable!(),
    }
}

/// The end of the channel, which comes to switch `w`, sends an FCT (ECSS-E-ST-50-12C, data link layer:
/// flow control).
#[inline(always)]
pub fn fct<R: Routing, A: Arbiter>(
    network: &Network,
    w: u16,
    channel: Chan,
    cell: &mut SwitchCell<R, A>,
    wires: &mut Wires,
) -> bool
    requires cell { IsSwitchFor R.answer A.ports network.now w cell.old }
    requires at { (network_of network.now).end_of channel ≡ AtSwitch w }
    requires reached { HasSwitchState network.now w cell.old wires.old }
    ensures cell { IsSwitchFor R.answer A.ports network.now w cell.new }
    ensures arbiters { cell.new.arbiters ≡ cell.old.arbiters }
    ensures made { SwitchMakes network.now w cell.old wires.old (Fct channel) result cell.new wires.new }
{
    let port = input(network, w, channel);
    if !cell.can_issue(port) {
        return false;
    }
    cell.issue(port);
    wires.send_fct(channel);
    true
}

/// An FCT arrives where the channel starts that goes out from switch `w` (ECSS-E-ST-50-12C, data link
/// layer: flow control).
#[inline(always)]
pub fn fct_in<R: Routing, A: Arbiter>(
    network: &Network,
    w: u16,
    channel: Chan,
    cell: &mut SwitchCell<R, A>,
    wires: &mut Wires,
) -> bool
    requires cell { IsSwitchFor R.answer A.ports network.now w cell.old }
    requires at { (network_of network.now).start_of channel ≡ AtSwitch w }
    requires reached { HasSwitchState network.now w cell.old wires.old }
    ensures cell { IsSwitchFor R.answer A.ports network.now w cell.new }
    ensures arbiters { cell.new.arbiters ≡ cell.old.arbiters }
    ensures made { SwitchMakes network.now w cell.old wires.old (FctIn channel) result cell.new wires.new }
{
    let port = output(network, w, channel);
    if wires.fcts(channel) == 0 {
        return false;
    }
    wires.take_fct(channel);
    cell.fct_in(port);
    true
}

/// The first character on the wire of the channel, which comes to switch `w`, arrives
/// (ECSS-E-ST-50-12C, data link layer: flow control).
#[inline(always)]
pub fn arrive<R: Routing, A: Arbiter>(
    network: &Network,
    w: u16,
    channel: Chan,
    cell: &mut SwitchCell<R, A>,
    wires: &mut Wires,
) -> bool
    requires cell { IsSwitchFor R.answer A.ports network.now w cell.old }
    requires at { (network_of network.now).end_of channel ≡ AtSwitch w }
    requires reached { HasSwitchState network.now w cell.old wires.old }
    ensures cell { IsSwitchFor R.answer A.ports network.now w cell.new }
    ensures arbiters { cell.new.arbiters ≡ cell.old.arbiters }
    ensures made { SwitchMakes network.now w cell.old wires.old (Arrive channel) result cell.new wires.new }
{
    let port = input(network, w, channel);
    let Some(character) = wires.first(channel) else {
        return false;
    };
    let _ = wires.take(channel);
    cell.arrive(port, character);
    true
}

/// The input where the channel ends, at switch `w`, loses a character of a packet that is
/// discarded.
#[inline(always)]
pub fn spill<R: Routing, A: Arbiter>(
    network: &Network,
    w: u16,
    channel: Chan,
    cell: &mut SwitchCell<R, A>,
) -> bool
    requires cell { IsSwitchFor R.answer A.ports network.now w cell.old }
    requires at { (network_of network.now).end_of channel ≡ AtSwitch w }
    ensures cell { IsSwitchFor R.answer A.ports network.now w cell.new }
    ensures arbiters { cell.new.arbiters ≡ cell.old.arbiters }
    ensures made { (b : Between) → SwitchMakes network.now w cell.old b (Spill channel) result cell.new b }
{
    let port = input(network, w, channel);
    if !cell.can_spill(port) {
        return false;
    }
    cell.spill(port);
    true
}

/// The input where the channel ends, at switch `w`, passes a character on to the output that it
/// holds (ECSS-E-ST-50-12C, network layer: wormhole routing).
#[inline(always)]
pub fn forward<R: Routing, A: Arbiter>(
    network: &Network,
    w: u16,
    channel: Chan,
    cell: &mut SwitchCell<R, A>,
    wires: &mut Wires,
) -> bool
    requires cell { IsSwitchFor R.answer A.ports network.now w cell.old }
    requires at { (network_of network.now).end_of channel ≡ AtSwitch w }
    requires reached { HasSwitchState network.now w cell.old wires.old }
    ensures cell { IsSwitchFor R.answer A.ports network.now w cell.new }
    ensures arbiters { cell.new.arbiters ≡ cell.old.arbiters }
    ensures made { SwitchMakes network.now w cell.old wires.old (Forward channel) result cell.new wires.new }
{
    let port = input(network, w, channel);
    if !cell.can_forward(port) {
        return false;
    }
    let (out, character) = cell.forward(port);
    let next = network.topology().out_of(w, out).unwrap();
    wires.put(next, character);
    true
}

/// The input where the channel ends, at switch `w`, drops an end marker that stands before any
/// packet, or begins to discard a packet that goes nowhere.
#[inline(always)]
pub fn drop_front<R: Routing, A: Arbiter>(
    network: &Network,
    w: u16,
    channel: Chan,
    cell: &mut SwitchCell<R, A>,
) -> bool
    requires cell { IsSwitchFor R.answer A.ports network.now w cell.old }
    requires at { (network_of network.now).end_of channel ≡ AtSwitch w }
    ensures cell { IsSwitchFor R.answer A.ports network.now w cell.new }
    ensures arbiters { cell.new.arbiters ≡ cell.old.arbiters }
    ensures made { (b : Between) → SwitchMakes network.now w cell.old b (Drop channel) result cell.new b }
{
    let port = input(network, w, channel);
    if !cell.can_drop(port) {
        return false;
    }
    cell.drop_front(port);
    true
}

/// The port of switch `w` where the channel starts, if it starts there.
fn output_port(network: &Network, w: u16, channel: Chan) -> Option<Port>
    ensures { result ≡ port_at w (slice_get (ends_of network.now) channel) }
{
    if channel.number() >= network.channels() {
        return None;
    }
    match network.topology().start_of(channel) {
        PlaceEnd::Switch(s, port) if s == w => Some(port),
        PlaceEnd::Switch(_, _) | PlaceEnd::Node(_) => None,
    }
}

/// The output where a channel starts is granted to the input where the other ends, at switch `w`
/// (ECSS-E-ST-50-12C, network layer: wormhole routing). The output's arbiter is not asked.
#[inline(always)]
pub fn grant<R: Routing, A: Arbiter>(
    network: &Network,
    w: u16,
    output: Chan,
    channel: Chan,
    cell: &mut SwitchCell<R, A>,
) -> bool
    requires cell { IsSwitchFor R.answer A.ports network.now w cell.old }
    requires at { (network_of network.now).end_of channel ≡ AtSwitch w }
    ensures cell { IsSwitchFor R.answer A.ports network.now w cell.new }
    ensures arbiters { cell.new.arbiters ≡ cell.old.arbiters }
    ensures made { (b : Between) → SwitchMakes network.now w cell.old b (Grant output channel) result cell.new b }
{
    let port = input(network, w, channel);
    let Some(out) = output_port(network, w, output) else {
        return false;
    };
    if !cell.asks(out).contains(port) {
        return false;
    }
    cell.grant_to(out, port);
    true
}

/// The output where the channel starts, at switch `w`, is granted to the input that its arbiter
/// picks among those that ask (ECSS-E-ST-50-12C, network layer: arbitration). Answers the channel
/// that ends at that input, and `None` if no input asks or the output is held: then nothing changed.
pub fn arbitrate<R: Routing, A: Arbiter>(
    network: &Network,
    w: u16,
    channel: Chan,
    cell: &mut SwitchCell<R, A>,
) -> Option<Chan>
    requires cell { IsSwitchFor R.answer A.ports network.now w cell.old }
    requires at { (network_of network.now).start_of channel ≡ AtSwitch w }
    ensures cell { IsSwitchFor R.answer A.ports network.now w cell.new }
    ensures none { IfNone result (CannotGrant network.now w cell.old channel) }
    ensures kept { IfNone result (cell.new ≡ cell.old) }
    ensures some { IfSome result (GrantsPick R.answer A.policy network.now w cell.old cell.new channel) }
{
    let out = output(network, w, channel);
    let picked = cell.grant(out)?;
    let back = network.topology().out_of(w, picked).unwrap();
    Some(back.partner())
}

/// A step at the link end of a port of a switch, other than to grant its output.
#[derive(Clone, Copy)]
pub enum PortStep {
    /// An FCT leaves for the channel that comes to the port.
    Fct,
    /// An FCT arrives for the channel that goes out from it.
    FctIn,
    /// The first character on the wire of the channel that comes to it arrives.
    Arrive,
    /// Its input drops an end marker, or begins to discard a packet that goes nowhere.
    DropFront,
    /// Its input passes a character on to the output that it holds.
    Forward,
    /// Its input loses a character of a packet that is discarded.
    Spill,
}

/// Whether that step of the link end, which stands at switch `w`, is possible.
#[inline(always)]
pub fn is_possible<R: Routing, A: Arbiter>(
    network: &Network,
    w: u16,
    end: LinkEnd,
    step: PortStep,
    cell: &SwitchCell<R, A>,
    wires: &Wires,
) -> bool
    requires cell { IsSwitchFor R.answer A.ports network.now w cell.now }
    requires at { (network_of network.now).start_of end ≡ AtSwitch w }
    requires reached { HasSwitchState network.now w cell.now wires.now }
    ensures { SwitchTells network.now w cell.now wires.now (step_at_port end step) result }
{
    let port = output(network, w, end.sends());
    match step {
        PortStep::Fct => cell.can_issue(port),
        PortStep::FctIn => wires.fcts(end.sends()) > 0,
        PortStep::Arrive => wires.len(end.receives()) > 0,
        PortStep::DropFront => cell.can_drop(port),
        PortStep::Forward => cell.can_forward(port),
        PortStep::Spill => cell.can_spill(port),
    }
}

/// Whether the output where a channel starts can be granted to the input where the other ends, at
/// switch `w` (ECSS-E-ST-50-12C, network layer: wormhole routing).
pub fn can_grant<R: Routing, A: Arbiter>(
    network: &Network,
    w: u16,
    output: Chan,
    channel: Chan,
    cell: &SwitchCell<R, A>,
) -> bool
    requires cell { IsSwitchFor R.answer A.ports network.now w cell.now }
    requires at { (network_of network.now).end_of channel ≡ AtSwitch w }
    ensures { (b : Between) → SwitchTells network.now w cell.now b (Grant output channel) result }
{
    let port = input(network, w, channel);
    match output_port(network, w, output) {
        Some(out) => cell.asks(out).contains(port),
        None => false,
    }
}

/// Whether some step of the link end, which stands at switch `w`, is possible.
pub fn can_step<R: Routing, A: Arbiter>(
    network: &Network,
    w: u16,
    end: LinkEnd,
    cell: &SwitchCell<R, A>,
    wires: &Wires,
) -> bool
    requires cell { IsSwitchFor R.answer A.ports network.now w cell.now }
    requires at { (network_of network.now).start_of end ≡ AtSwitch w }
    requires reached { HasSwitchState network.now w cell.now wires.now }
    ensures { PortEnabled network.now w cell.now wires.now end result }
{
    let port = output(network, w, end.sends());
    if cell.enabled(port) {
        return true;
    }
    if wires.fcts(end.sends()) > 0 {
        return true;
    }
    wires.len(end.receives()) > 0
}

/// A step of the link end, which stands at switch `w`, that is possible, other than to grant its
/// output, if some is. Where several are, any of them may be told.
#[inline(always)]
pub fn possible_step<R: Routing, A: Arbiter>(
    network: &Network,
    w: u16,
    end: LinkEnd,
    cell: &SwitchCell<R, A>,
    wires: &Wires,
) -> Option<PortStep>
    requires cell { IsSwitchFor R.answer A.ports network.now w cell.now }
    requires at { (network_of network.now).start_of end ≡ AtSwitch w }
    requires reached { HasSwitchState network.now w cell.now wires.now }
    ensures { PortHas network.now w cell.now wires.now end result }
{
    if is_possible(network, w, end, PortStep::Fct, cell, wires) {
        return Some(PortStep::Fct);
    }
    if is_possible(network, w, end, PortStep::FctIn, cell, wires) {
        return Some(PortStep::FctIn);
    }
    if is_possible(network, w, end, PortStep::Arrive, cell, wires) {
        return Some(PortStep::Arrive);
    }
    if is_possible(network, w, end, PortStep::DropFront, cell, wires) {
        return Some(PortStep::DropFront);
    }
    if is_possible(network, w, end, PortStep::Forward, cell, wires) {
        return Some(PortStep::Forward);
    }
    if is_possible(network, w, end, PortStep::Spill, cell, wires) {
        return Some(PortStep::Spill);
    }
    None
}
