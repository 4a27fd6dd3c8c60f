//! The summary of a run.
ghost use Rattle.std.specs.Prelude.{◌≡◌, ◌↔◌, ◌≤◌, IfOk, IsTrue, length, map, option_map, string_bytes};
ghost use Rattle.sw_machine.specs.StepValues.{machine_step};
ghost use Rattle.sw_search.specs.Laws.{RoutedAndFree};
ghost use Rattle.sw_runs.specs.Summaries.{AreFillsTold, IsSummary, IsSummaryOf, IsWantedSummary, ShowsNothing};

use std::alloc::{AllocError, Global};
use sw_char::Packet;
use sw_config::Network;
use sw_load::Load;
use sw_machine::Step;
use sw_run::{Outcome, Stop};
use sw_search::{VerdictWorkers, is_free};
use sw_summary::{fill_lines, greatest_fills, summary_of};

/// Did the run drain, although the network is not free?
fn shows_nothing<W: VerdictWorkers>(
    workers: &W,
    alloc: Global,
    network: &Network,
    stop: Stop,
) -> Result<bool, AllocError>
    ensures { IfOk result (λ b. IsTrue b ↔ ShowsNothing network.now stop) }
{
    match stop {
        Stop::Drained => Ok(!is_free(workers, alloc, network)?),
        Stop::Stuck | Stop::Waiting | Stop::JournalFull | Stop::Memory => Ok(false),
    }
}

/// How full the buffers got, a line for each that held something.
fn fills_text(alloc: Global, network: &Network, steps: &[Step]) -> Result<String, AllocError>
    ensures { IfOk result (λ s. AreFillsTold network.now (map machine_step steps.now) (string_bytes s)) }
{
    match greatest_fills(alloc, network, steps)? {
        Some(fills) => fill_lines(alloc, network, &fills),
        None => Ok(String::new(alloc)),
    }
}

/// The summary of these steps and of what came out.
fn summary_text(
    alloc: Global,
    network: &Network,
    load: &Load,
    steps: &[Step],
    out: &[Vec<Packet>],
    warned: bool,
) -> Result<String, AllocError>
    requires { length out.now ≤ 1024 }
    ensures { IfOk result (λ s. IsSummaryOf network.now load.now (map machine_step steps.now) (map (λ packets. packets.items) out.now) warned (string_bytes s)) }
{
    let summed = summary_of(alloc, network, load, steps, out, warned)?;
    let filled = fills_text(alloc, network, steps)?;
    format!(in alloc; "{summed}{filled}")
}

/// The summary of the outcome.
fn summary<W: VerdictWorkers>(
    workers: &W,
    alloc: Global,
    network: &Network,
    load: &Load,
    outcome: &Outcome<'_>,
) -> Result<String, AllocError>
    requires { length outcome.now.came_out.items ≡ length network.now.nodes }
    ensures { IfOk result (λ s. IsSummary network.now load.now outcome.now (string_bytes s)) }
{
    // Names the network, which is valid by its type.
    let _topology = network.topology();
    let warned = shows_nothing(workers, alloc, network, outcome.stop)?;
    let steps = outcome.history.steps(alloc)?;
    summary_text(
        alloc,
        network,
        load,
        &steps,
        outcome.came_out.as_slice(),
        warned,
    )
}

/// The summary of the outcome, if it is wanted.
///
/// # Errors
///
/// There is no memory for it.
pub(crate) fn wanted_summary<W: VerdictWorkers>(
    workers: &W,
    alloc: Global,
    network: &Network,
    load: &Load,
    outcome: &Outcome<'_>,
    is_wanted: bool,
) -> Result<Option<String>, AllocError>
    requires { length outcome.now.came_out.items ≡ length network.now.nodes }
    ensures { IfOk result (λ o. IsWantedSummary is_wanted network.now load.now outcome.now (option_map string_bytes o)) }
{
    if !is_wanted {
        return Ok(None);
    }
    Ok(Some(summary(workers, alloc, network, load, outcome)?))
}
