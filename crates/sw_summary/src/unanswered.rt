//! Which commands nobody answers.
ghost use Rattle.std.specs.Prelude.{◌≡◌, ◌++◌, IfOk, string_bytes};
ghost use Rattle.sw_summary.specs.Texts.{unanswered_text, unanswered_texts};

use crate::begun::{Begun, forms};
use crate::declared::declared_flow;
use crate::handling::{Handling, handled_as};
use std::alloc::{AllocError, Global};
use std::fmt::Write;
use sw_char::Packet;
use sw_config::Network;

/// Why nobody answers a command, in the order of the lines.
const REASONS: &[Handling] = &[
    Handling::TooShort,
    Handling::OtherProtocol,
    Handling::WrongCrc,
    Handling::IsReply,
    Handling::NotAsked,
    Handling::NoWay,
];

/// Adds a line for each reason for which nobody answers packets of the flow.
#[tactic(auto, unfolding(crate::specs::Texts::unanswered_text))]
fn add_reasons(name: &str, packets: &[Packet], text: &mut String) -> Result<(), AllocError>
    ensures { IfOk result (λ _. string_bytes text.new ≡ string_bytes text.old ++ unanswered_text name.now packets.now) }
{
    for reason in REASONS {
        let count = handled_as(*reason, packets);
        if count == 0 {
            continue;
        }
        let words = reason.reason();
        write!(
            text,
            "commands of {name} that nobody answers: {count} ({words})\n"
        )?;
    }
    Ok(())
}

/// Adds the lines of all flows that end at targets.
pub(crate) fn add_unanswered(
    alloc: Global,
    network: &Network,
    begun: &[Begun<'_>],
    text: &mut String,
) -> Result<(), AllocError>
    ensures { IfOk result (λ _. string_bytes text.new ≡ string_bytes text.old ++ unanswered_texts network.now begun.now) }
{
    for i in 0..network.declared_flows() {
        let flow = declared_flow(network, i);
        if !network.is_target(flow.to()) {
            continue;
        }
        let packets = forms(alloc, flow, i, begun)?;
        add_reasons(flow.name(), &packets, text)?;
    }
    Ok(())
}
