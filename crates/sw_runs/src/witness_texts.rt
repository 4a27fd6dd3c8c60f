//! The texts of `witness` that are no schedule.
ghost use Rattle.std.specs.Prelude.{◌≡◌, IfOk, string_bytes};
ghost use Rattle.sw_runs.specs.WitnessAnswers.{none_found};
ghost use Rattle.sw_witness.specs.Witnesses.{LocksUp};

use std::alloc::{AllocError, Global};
use sw_config::Network;
use sw_explain::names_text;
use sw_witness::locks_up;

/// That no lock-up was found by so many tries.
pub(crate) fn none_found(alloc: Global, tries: u32) -> Result<String, AllocError>
    ensures { IfOk result (λ s. string_bytes s ≡ none_found tries) }
{
    format!(in alloc; "no lock-up found in {tries} tries\n")
}

/// The schedule behind a line that the replies of these flows can't happen.
fn with_replies_note(
    alloc: Global,
    network: &Network,
    flows: &[u16],
    schedule: &str,
) -> Result<String, AllocError> {
    let names = names_text(alloc, network, flows)?;
    format!(in alloc; "# the replies of {names} can't happen\n{schedule}")
}

/// The schedule, behind a line that the replies of these flows can't happen, if there are any; it is replayed once more.
pub(crate) fn with_note(
    alloc: Global,
    network: &Network,
    flows: &[u16],
    schedule: String,
) -> Result<String, AllocError>
    requires { LocksUp network.now (string_bytes schedule) }
    ensures { IfOk result (λ s. LocksUp network.now (string_bytes s)) }
{
    if flows.is_empty() {
        return Ok(schedule);
    }
    let noted = with_replies_note(alloc, network, flows, schedule.as_str())?;
    if locks_up(alloc, network, noted.as_bytes())? {
        Ok(noted)
    } else {
        Ok(schedule)
    }
}
