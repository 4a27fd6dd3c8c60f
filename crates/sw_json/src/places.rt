//! Channels and places of flows as values.
ghost use Rattle.std.specs.Prelude.{◌≡◌, ◌<◌, ◌∷◌, [], All, IfOk, codes, length, map, string_bytes};
ghost use Rattle.serde_json.specs.Data.{string};
ghost use Rattle.serde_json.specs.View.{view};
ghost use Rattle.sw_config.specs.Entries.{wiring_of};
ghost use Rattle.sw_output.specs.ChannelTexts.{start_text};
ghost use Rattle.sw_json.specs.Objects.{member_value, object_of};
ghost use Rattle.sw_json.specs.PlaceValues.{finish_text, misrouted_fault_value, place_value};
ghost use Rattle.sw_json.specs.Simple.{count_value};

use crate::codes::route_fault_code;
use crate::lists::add_value;
use crate::objects::{Member, object_of};
use serde_json::Value;
use std::alloc::{AllocError, Global};
use sw_config::Network;
use sw_flow::{Place, RouteFault};
use sw_output::{end_text, route_fault_text};
use sw_topo::Chan;

/// The end of a link at which the channel starts: `NODE` or `SWITCH:PORT`.
///
/// # Errors
///
/// There is no memory for the text.
pub fn start_text(alloc: Global, network: &Network, channel: Chan) -> Result<String, AllocError>
    requires { channel < length (wiring_of network.now).ends }
    ensures { IfOk result (λ s. string_bytes s ≡ start_text network.now channel) }
{
    end_text(alloc, network, network.topology().start_of(channel))
}

/// The end of a link at which the channel ends: `NODE` or `SWITCH:PORT`.
///
/// # Errors
///
/// There is no memory for the text.
pub fn finish_text(alloc: Global, network: &Network, channel: Chan) -> Result<String, AllocError>
    requires { channel < length (wiring_of network.now).ends }
    ensures { IfOk result (λ s. string_bytes s ≡ finish_text network.now channel) }
{
    end_text(alloc, network, network.topology().end_of(channel))
}

/// The object that stands for a channel: its number, the ends of its link at which it ends and starts, and one member more.
pub(crate) fn channel_object(
    alloc: Global,
    network: &Network,
    channel: Chan,
    name: &str,
    more: Member<'_>,
) -> Result<Value, AllocError>
    requires { channel < length (wiring_of network.now).ends }
    ensures { IfOk result (λ v. view v ≡ object_of ((name.now, member_value more.entry) ∷ (codes "channel", count_value channel) ∷ (codes "end", string (finish_text network.now channel)) ∷ (codes "start", string (start_text network.now channel)) ∷ [])) }
{
    let number = channel.number();
    let start = start_text(alloc, network, channel)?;
    let end = finish_text(alloc, network, channel)?;
    let members = vec![in alloc;
        (name, more),
        ("channel", Member::Number(u64::from(number))),
        ("end", Member::Value(Value::String(end))),
        ("start", Member::Value(Value::String(start))),
    ]?;
    object_of(alloc, members)
}

/// The object that stands for a place of a flow.
///
/// # Errors
///
/// There is no memory for the value.
pub fn place_value(alloc: Global, network: &Network, place: Place) -> Result<Value, AllocError>
    requires { place.channel < length (wiring_of network.now).ends }
    ensures { IfOk result (λ v. view v ≡ place_value network.now place) }
{
    let deleted = Member::Number(u64::from(place.deleted));
    channel_object(alloc, network, place.channel, "deleted", deleted)
}

/// An object for each of the places.
///
/// # Errors
///
/// There is no memory for the values.
pub fn place_values(
    alloc: Global,
    network: &Network,
    places: &[Place],
) -> Result<Vec<Value>, AllocError>
    requires { All (λ p. p.channel < length (wiring_of network.now).ends) places.now }
    ensures { IfOk result (λ v. map view v.items ≡ map (place_value network.now) places.now) }
{
    let mut values = Vec::new(alloc);
    for place in places {
        add_value(place_value(alloc, network, *place), &mut values)?;
    }
    Ok(values)
}

/// The object that stands for a place with its fault.
///
/// # Errors
///
/// There is no memory for the value.
pub fn misrouted_fault_value(
    alloc: Global,
    place: Place,
    fault: RouteFault,
) -> Result<Value, AllocError>
    ensures { IfOk result (λ v. view v ≡ misrouted_fault_value place fault) }
{
    let channel = place.channel.number();
    let deleted = place.deleted;
    let code = route_fault_code(fault);
    let fault = route_fault_text(fault);
    let text = format!(in alloc; "misrouted {channel} {deleted} {fault}")?;
    let members = vec![in alloc;
        ("channel", Member::Number(u64::from(channel))),
        ("code", Member::Text(code)),
        ("deleted", Member::Number(u64::from(deleted))),
        ("text", Member::Value(Value::String(text))),
    ]?;
    object_of(alloc, members)
}
