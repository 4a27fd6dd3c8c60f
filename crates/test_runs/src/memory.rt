//! Calls that change something and want memory for it. Each is made again where memory was refused: what it may change has to be then as it was
//! before. So this prints the same whichever allocation of such a call is refused. Where memory is refused to what such a call needs, or to a call
//! that changes nothing, it ends with the error that there was no memory.
//!
//! `tests/refusals` runs it with the first allocation refused, then with the second, and so on. Of the calls that change nothing it has those that
//! `swcheck` makes with none of the words that `tests/refusals` gives it: the others are tried there.

mod histories;
mod networks;
mod steps;
mod tables;
mod targets;

use crate::memory::networks::{RMAP, TURN, Work, add_of_file};
use std::alloc::{AllocError, Global};
use std::io;

/// Adds to the text what each call comes to.
fn add_all(alloc: Global, text: &mut String) -> Result<(), AllocError> {
    let entries = tables::entries(alloc)?;
    let channels = tables::channels(alloc)?;
    let end = targets::cut(alloc)?;
    write!(
        text,
        "table {entries}\nchannels {channels}\npackets end at {end}\n"
    )?;
    add_of_file(alloc, TURN, Work::Load, text)?;
    targets::add_answers(alloc, text)?;
    add_of_file(alloc, RMAP, Work::Commands, text)
}

/// Prints what each call comes to.
pub(crate) fn show_memory(rt: &HostRuntime) -> io::Result<()> {
    let mut text = String::new(rt.alloc());
    add_all(rt.alloc(), &mut text)?;
    print!(rt; "# calls made again after want of memory\n{text}")
}
