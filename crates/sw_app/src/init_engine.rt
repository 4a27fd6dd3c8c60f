//! The engine of `init`.
ghost use Rattle.sw_text.specs.Ends.{IsTold};
ghost use Rattle.sw_app.specs.Samples.{sample_text};

use crate::samples::{Sample, sample_text};
use std::io::Write;
use sw_text::statuses::GOOD;
use sw_text::{Ended, tell};

/// Writes the network file of a sample, with status 0. It takes no memory.
pub fn init<W: Write>(sample: Sample, writer: &mut W) -> Ended
    ensures { IsTold (W.contents writer.old) (W.contents writer.new) (sample_text sample) 0 result }
{
    tell(sample_text(sample), GOOD, writer)
}
