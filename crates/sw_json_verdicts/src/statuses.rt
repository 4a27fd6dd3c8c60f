//! The statuses of verdicts, and the worst of many.
ghost use Rattle.std.specs.Prelude.{◌≡◌};
ghost use Rattle.sw_json_verdicts.specs.AuditTexts.{is_told};
ghost use Rattle.sw_json_verdicts.specs.Findings.{kept_status, verdict_word};

use sw_search::Verdict;
use sw_text::statuses::{GOOD, UNREAD_OR_UNWRITTEN};

/// The verdict in a word.
pub(crate) fn verdict_word(verdict: &Verdict) -> &'static str
    ensures { result.now ≡ verdict_word verdict.now }
{
    match verdict {
        Verdict::Misrouted(_, _, _) => "misrouted",
        Verdict::Cyclic(_) => "cyclic",
        Verdict::Free(_) => "free",
    }
}

/// The status of a free network whose certificate was to be kept.
pub(crate) fn kept_status(kept: bool) -> u8
    ensures { result ≡ kept_status kept }
{
    if kept { GOOD } else { UNREAD_OR_UNWRITTEN }
}

/// Is a file of that status told?
pub(crate) fn is_told(quiet: bool, status: u8) -> bool
    ensures { result ≡ is_told quiet status }
{
    !quiet || status != GOOD
}
