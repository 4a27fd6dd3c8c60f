//! The text of a flow that is not well routed.
ghost use Rattle.std.specs.Prelude.{◌≡◌, IfOk, string_bytes};
ghost use Rattle.sw_search.specs.Explanations.{GoesWrong};
ghost use Rattle.sw_explain.specs.ExplainTexts.{fault_words, misrouted_text};

use crate::words::ending;
use std::alloc::{AllocError, Global};
use std::fmt::Write;
use sw_config::Network;
use sw_flow::{Place, RouteFault};
use sw_output::{channel_text, flow_name, route_fault_text};

/// What is wrong where packets go no further.
pub fn fault_words(fault: RouteFault) -> &'static str
    ensures { result.now ≡ fault_words fault }
{
    match fault {
        RouteFault::AddressEnds => "a switch is reached with no address byte left",
        RouteFault::NoRoute => "the switch has no linked port for the next address byte",
        RouteFault::WrongNode => "a node is reached that is not the flow's 'to'",
        RouteFault::WrongLeft => {
            "the flow's 'to' is reached with another number of address bytes than 'left'"
        }
    }
}

/// The flow, the places that its packets go over, and what is wrong at the last of them.
pub(crate) fn misrouted_text(
    alloc: Global,
    network: &Network,
    flow: u16,
    place: Place,
    fault: RouteFault,
    way: &[Place],
) -> Result<String, AllocError>
    requires { GoesWrong network.now flow place fault way.now }
    ensures { IfOk result (λ s. string_bytes s ≡ misrouted_text network.now flow fault way.now) }
{
    let name = flow_name(network, flow);
    let mut text = format!(in alloc; "misrouted {name}\n")?;
    for (before, place) in way.iter().enumerate() {
        let number = before + 1;
        let channel = channel_text(alloc, network, place.channel)?;
        let deleted = place.deleted;
        let ending = ending(deleted as usize);
        write!(
            text,
            "{number}. a packet of {name} goes on {channel}, with {deleted} address byte{ending} deleted\n"
        )?;
    }
    let fault_name = route_fault_text(fault);
    let words = fault_words(fault);
    write!(text, "{fault_name}: {words}\n")?;
    Ok(text)
}
