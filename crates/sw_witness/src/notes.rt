//! Lines of a schedule that a replay passes over: what its packets are sent for.
ghost use Rattle.std.specs.Prelude.{◌≡◌, ◌++◌, ◌<◌, IfOk, length, string_bytes};
ghost use Rattle.sw_config.specs.Entries.{wiring_of};
ghost use Rattle.sw_witness.specs.Notes.{line_of, note_line};

use crate::leg::Leg;
use std::alloc::{AllocError, Global};
use sw_config::Network;
use sw_output::{channel_text, node_name};
use sw_topo::{Chan, PlaceEnd};

/// What is to hold a channel and to wait for another.
#[derive(Clone, Copy)]
pub(crate) enum Holder {
    /// A packet of a flow.
    Flow,
    /// A target, which is to take nothing from the one until its reply has left on the other.
    Target,
}

/// Adds the line that says what is to hold the one channel, of this text, and to wait for the other.
fn add_line(
    holder: Holder,
    name: &str,
    held: &str,
    wanted: &str,
    text: &mut String,
) -> Result<(), AllocError>
    ensures { IfOk result (λ _. string_bytes text.new ≡ string_bytes text.old ++ line_of holder name.now held.now wanted.now) }
{
    match holder {
        Holder::Flow => write!(
            text,
            "# a packet of {name} is to hold {held} and to wait for {wanted}\n"
        ),
        Holder::Target => write!(
            text,
            "# {name} is to take nothing from {held} until its reply has left on {wanted}\n"
        ),
    }
}

/// Adds the line that says what is to hold the one channel and to wait for the other; nothing where the network has no such channel.
pub(crate) fn note(
    alloc: Global,
    network: &Network,
    holder: Holder,
    name: &str,
    from: Chan,
    to: Chan,
    text: &mut String,
) -> Result<(), AllocError>
    ensures { IfOk result (λ _. from < length (wiring_of network.now).ends → to < length (wiring_of network.now).ends → string_bytes text.new ≡ string_bytes text.old ++ note_line network.now holder name.now from to) }
{
    let channels = network.channels();
    if from.number() >= channels {
        return Ok(());
    }
    if to.number() >= channels {
        return Ok(());
    }
    let held = channel_text(alloc, network, from)?;
    let wanted = channel_text(alloc, network, to)?;
    add_line(holder, name, &held, &wanted, text)
}

/// Adds a line for the leg: of the flow whose packet holds its channel, or of the target at its end.
pub(crate) fn note_leg(
    alloc: Global,
    network: &Network,
    leg: &Leg,
    text: &mut String,
) -> Result<(), AllocError> {
    let Leg { from, to, flow, .. } = *leg;
    if from.number() >= network.channels() {
        return Ok(());
    }
    match (flow, network.topology().end_of(from)) {
        (Some(flow), _) if flow < network.flows() => {
            note(
                alloc,
                network,
                Holder::Flow,
                network.flow(flow).name(),
                from,
                to,
                text,
            )
        }
        (None, PlaceEnd::Node(node)) => {
            note(
                alloc,
                network,
                Holder::Target,
                node_name(network, node),
                from,
                to,
                text,
            )
        }
        _ => Ok(()),
    }
}
