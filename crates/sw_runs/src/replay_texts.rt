//! The text of `replay`.
ghost use Rattle.std.specs.Prelude.{◌≡◌, IfOk, length, map, string_bytes};
ghost use Rattle.sw_schedule.specs.Reports.{report_of};
ghost use Rattle.sw_runs.specs.ReplayTexts.{made_line, refusal_text, replay_status, replay_text, state_lines, stuck_line};

use std::alloc::{AllocError, Global};
use sw_config::Network;
use sw_output::{all_node_lines, all_packet_lines, undelivered_line};
use sw_schedule::{ReplayEnd, Replayed, StepRefusal};
use sw_text::statuses::{BAD, GOOD, LOCKED_UP};

fn refusal_text(refusal: StepRefusal) -> &'static str
    ensures { result.now ≡ refusal_text refusal }
{
    match refusal {
        StepRefusal::NotEnabled => "N1 NotEnabled",
        StepRefusal::NotInFlow => "N2 NotInFlow",
        StepRefusal::OverLimit => "N4 OverLimit",
    }
}

fn refused_line(alloc: Global, number: u32, refusal: StepRefusal) -> Result<String, AllocError>
    ensures { IfOk result (λ s. string_bytes s ≡ made_line (ReplayEnd.Refused number refusal)) }
{
    let name = refusal_text(refusal);
    format!(in alloc; "refused {number} {name}\n")
}

fn made_line(alloc: Global, outcome: ReplayEnd) -> Result<String, AllocError>
    ensures { IfOk result (λ s. string_bytes s ≡ made_line outcome) }
{
    match outcome {
        ReplayEnd::Made(count) => format!(in alloc; "replayed {count}\n"),
        ReplayEnd::Refused(number, refusal) => refused_line(alloc, number, refusal),
    }
}

fn stuck_line(stuck: bool) -> &'static str
    ensures { result.now ≡ stuck_line stuck }
{
    if stuck { "stuck yes\n" } else { "stuck no\n" }
}

/// How far the steps were made, and what is true of the state then.
fn state_lines(alloc: Global, replayed: &Replayed) -> Result<String, AllocError>
    ensures { IfOk result (λ s. string_bytes s ≡ state_lines (report_of replayed.now)) }
{
    let made = made_line(alloc, replayed.outcome)?;
    let undelivered = undelivered_line(alloc, replayed.undelivered)?;
    let stuck = stuck_line(replayed.stuck);
    format!(in alloc; "{made}{undelivered}{stuck}")
}

/// The text of a replay.
pub(crate) fn replay_text(
    alloc: Global,
    network: &Network,
    replayed: &Replayed,
) -> Result<String, AllocError>
    requires { length replayed.now.came_out.items ≡ length network.now.nodes }
    ensures { IfOk result (λ s. string_bytes s ≡ replay_text network.now (report_of replayed.now)) }
{
    let state = state_lines(alloc, replayed)?;
    let all = replayed.came_out.as_slice();
    let nodes = all_node_lines(alloc, network, all)?;
    let packets = all_packet_lines(alloc, network, all)?;
    format!(in alloc; "{state}{nodes}{packets}")
}

/// The status of a replay: a refused step goes before a lock-up.
pub(crate) fn replay_status(replayed: &Replayed) -> u8
    ensures { result ≡ replay_status replayed.now.outcome replayed.now.stuck }
{
    match replayed.outcome {
        ReplayEnd::Refused(_, _) => BAD,
        ReplayEnd::Made(_) => { if replayed.stuck { LOCKED_UP } else { GOOD } }
    }
}
