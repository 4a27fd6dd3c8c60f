//! Hints on flows that are not well routed or not there, and on a network that can lock up.
use crate::digits::Digits;
use crate::misrouted::Misrouted;
use crate::teller::{Teller, Text};
use std::alloc::{AllocError, Global};
use sw_config::Network;
use sw_faults::Hint;
use sw_flow::{Chan, Place, RouteFault};
use sw_output::flow_name;

/// Where to look at channels that can wait for one another in a circle.
const CYCLIC_HELP: &str =
    "see swcheck explain for the shortest cycle, mend for what to change, witness for a schedule that locks up";

/// The same where the shortest cycle is told already.
const SHORTEST_HELP: &str =
    "see swcheck explain for its causes, mend for what to change, witness for a schedule that locks up";

/// How many channels of a cycle are told.
const MOST_TOLD: usize = 12;

/// The hint of a flow that is not well routed, of the network whose file has this text: its way to
/// the place, what happens there, what to change.
///
/// # Errors
///
/// There is no memory for the hint, or to find the way.
pub fn misrouted_hint(
    alloc: Global,
    network: &Network,
    text: &[u8],
    number: u16,
    place: &Place,
    fault: RouteFault,
) -> Result<Hint, AllocError> {
    let teller = Teller { alloc, network };
    let what = format!(in alloc; "flow {} is misrouted", flow_name(network, number))?;
    let found = teller.fault_text(place, fault)?;
    let mut hint = Hint {
        found,
        ..Hint::new(alloc, what)
    };
    if let Some(flow) = teller.flow(number) {
        let misrouted = Misrouted {
            teller,
            digits: Digits::in_text(text),
            flow,
            number,
        };
        hint.steps = misrouted.way(place)?;
        hint.help = misrouted.change(place, fault)?;
    }
    Ok(hint)
}

impl Teller<'_> {
    /// The channels of a cycle, but no more than twelve of them.
    fn cycle(self, cycle: &[Chan]) -> Text {
        let mut text = self.text("")?;
        for (place, channel) in cycle.iter().enumerate() {
            if place == MOST_TOLD {
                let left = cycle.len() - MOST_TOLD;
                write!(text, " and {left} more")?;
                break;
            }
            let before = if place == 0 { "" } else { ", " };
            let channel = self.channel(Some(*channel))?;
            write!(text, "{before}{channel}")?;
        }
        Ok(text)
    }

    /// What to do about a name that no flow has: it may be that of the replies to a flow without
    /// any, or nearly that of another flow.
    fn unknown_flow_help(self, name: &str) -> Text {
        match name.strip_suffix("+reply") {
            Some(flow) if self.network.declared_flow_named(flow).is_some() => {
                format!(in self.alloc; "flow '{flow}' has no 'reply'")
            }
            _ => self.meant_flow(name, self.network.flows()),
        }
    }
}

/// No flow has this name; the one that is meant, maybe.
///
/// # Errors
///
/// There is no memory for the hint, or for what finds the flow.
pub fn unknown_flow_hint(alloc: Global, network: &Network, name: &str) -> Result<Hint, AllocError> {
    let teller = Teller { alloc, network };
    let what = teller.text("no flow has this name")?;
    Ok(Hint {
        found: teller.text(name)?,
        help: teller.unknown_flow_help(name)?,
        ..Hint::new(alloc, what)
    })
}

/// The hint of a network in which channels can wait for one another in circles, with the shortest cycle where it is known.
///
/// # Errors
///
/// There is no memory for the hint.
pub fn cyclic_hint(
    alloc: Global,
    network: &Network,
    cycle: Option<&[Chan]>,
) -> Result<Hint, AllocError> {
    let what = match cycle {
        Some(cycle) => {
            let channels = Teller { alloc, network }.cycle(cycle)?;
            format!(in alloc; "the shortest cycle is {channels}; {SHORTEST_HELP}")?
        }
        None => String::from_str(alloc, CYCLIC_HELP)?,
    };
    Ok(Hint::new(alloc, what))
}
