//! The text of a run.
ghost use Rattle.std.specs.Prelude.{◌≡◌, IfOk, length, map, string_bytes};
ghost use Rattle.sw_runs.specs.RunTexts.{report_text, stop_status, stop_word};

use crate::run_finding::RunReport;
use std::alloc::{AllocError, Global};
use sw_config::Network;
use sw_output::sent_text;
use sw_run::Stop;
use sw_text::statuses::{GOOD, LOCKED_UP, NO_ROOM};

/// Why a run stopped, in a word.
pub(crate) fn stop_word(stop: Stop) -> &'static str
    ensures { result.now ≡ stop_word stop }
{
    match stop {
        Stop::Drained => "drained",
        Stop::Stuck => "stuck",
        Stop::Waiting => "waiting",
        Stop::JournalFull => "journal-full",
        Stop::Memory => "memory",
    }
}

/// The status of a run that stopped so.
pub(crate) fn stop_status(stop: Stop) -> u8
    ensures { result ≡ stop_status stop }
{
    match stop {
        Stop::Drained => GOOD,
        Stop::Stuck | Stop::Waiting => LOCKED_UP,
        Stop::JournalFull | Stop::Memory => NO_ROOM,
    }
}

/// Why a run stopped, and what had come out of the network then.
pub(crate) fn report_text(
    alloc: Global,
    network: &Network,
    report: &RunReport,
) -> Result<String, AllocError>
    requires { length report.now.came_out.items ≡ length network.now.nodes }
    ensures { IfOk result (λ s. string_bytes s ≡ report_text network.now report.now) }
{
    let stop = stop_word(report.stop);
    let sent = sent_text(
        alloc,
        network,
        report.undelivered,
        report.came_out.as_slice(),
    )?;
    format!(in alloc; "{stop}\n{sent}")
}
