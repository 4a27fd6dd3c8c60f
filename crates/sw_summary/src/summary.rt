//! The text of a summary.
ghost use Rattle.std.specs.Prelude.{◌≡◌, ◌≤◌, IfOk, length, map, string_bytes};
ghost use Rattle.sw_machine.specs.StepValues.{machine_step};
ghost use Rattle.sw_summary.specs.Texts.{caveats, summary_text};

use crate::begun::beginnings;
use crate::flow_lines::add_flows;
use crate::status_lines::add_statuses;
use crate::unanswered::add_unanswered;
use std::alloc::{AllocError, Global};
use sw_char::Packet;
use sw_config::Network;
use sw_load::Load;
use sw_machine::Step;

fn caveats(shows_nothing: bool) -> &'static str
    ensures { result.now ≡ caveats shows_nothing }
{
    if shows_nothing {
        "time is not modelled\nthe network is not free: that this run drained shows nothing of other runs\n"
    } else {
        "time is not modelled\n"
    }
}

/// The summary of these steps of the load and of the packets that came out. Whether it ends by saying that a run that drained shows
/// nothing of other runs is what the caller says.
///
/// # Errors
///
/// There is no memory for the text.
pub fn summary_of(
    alloc: Global,
    network: &Network,
    load: &Load,
    steps: &[Step],
    out: &[Vec<Packet>],
    shows_nothing: bool,
) -> Result<String, AllocError>
    requires { length out.now ≤ 1024 }
    ensures { IfOk result (λ s. string_bytes s ≡ summary_text network.now load.now (map machine_step steps.now) (map (λ packets. packets.items) out.now) shows_nothing) }
{
    let count = steps.len();
    let begun = beginnings(alloc, steps)?;
    let mut text = format!(in alloc; "steps {count}\n")?;
    add_flows(alloc, network, load, &begun, out, &mut text)?;
    add_statuses(alloc, out, &mut text)?;
    add_unanswered(alloc, network, &begun, &mut text)?;
    text.push_str(caveats(shows_nothing))?;
    Ok(text)
}
