//! What is told of words that give no call, and of reads and writes that fail.
ghost use Rattle.std.specs.Prelude.{◌≡◌, ◌⊎◌};
ghost use Rattle.sw_args.specs.CommandLine.{words_status};
ghost use Rattle.sw_text.specs.Ends.{exit_status};

use crate::refusals::refusal_text;
use sw_args::WordsFault;
use sw_text::Ended;
use sw_text::statuses::REFUSED;

/// What is told of a value that an option does not have.
const NO_VALUE: &str = "--hints must be auto or never, and --notes must be few, all or never";

/// Tells of a read or a write that failed. How the call ended stays as it is.
pub fn told_end(rt: &impl Eprint, ended: Ended) -> Ended
    ensures { result ≡ ended }
{
    let _ = match ended {
        Ended::Status(_) => Ok(()),
        Ended::ReadFailed => eprint!(rt; "swcheck: read failed\n"),
        Ended::WriteFailed => eprint!(rt; "swcheck: write failed\n"),
    };
    ended
}

/// Tells why words are refused, as clap says it where there is no memory to say more.
fn tell_refusal<R: Eprint + AllocGlobal>(rt: &R, text: &str) {
    let _ = match refusal_text(rt.alloc(), text) {
        Ok(retold) => eprint!(rt; "{retold}"),
        Err(_) => eprint!(rt; "{text}"),
    };
}

/// Tells why the words give no call.
pub(crate) fn tell_words_fault<R: Print + Eprint + AllocGlobal>(rt: &R, fault: &WordsFault) -> u8
    ensures { (result ≡ words_status fault.now) ⊎ (result ≡ exit_status Ended.WriteFailed) }
{
    let written = match fault {
        WordsFault::Help(text) => print!(rt; "{text}"),
        WordsFault::Refused(text) => {
            tell_refusal(rt, text);
            Ok(())
        }
        WordsFault::Memory => print!(rt; "fault memory\n"),
    };
    match written {
        Ok(()) => fault.status(),
        Err(_) => told_end(rt, Ended::WriteFailed).status(),
    }
}

/// Tells why words are refused that clap takes.
pub fn tell_refused(rt: &impl Eprint, why: &str) -> Ended
    ensures { result ≡ Ended.Status 2 }
{
    let _ = eprint!(rt; "error: {why}\n");
    Ended::Status(REFUSED)
}

/// Tells that `--hints` or `--notes` has no such value.
pub fn no_telling(rt: &impl Eprint) -> Ended
    ensures { result ≡ Ended.Status 2 }
{
    tell_refused(rt, NO_VALUE)
}
