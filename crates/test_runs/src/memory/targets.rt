//! Packets and targets.

use hex::encode_upper;
use std::alloc::{AllocError, Global};
use sw_char::{End, NChar, packets};
use sw_rmap::{Target, TargetConfig};

/// How many of these characters belong to whole packets, of which there are three; else 0.
///
/// # Errors
///
/// There is no memory for the packets.
pub fn cut(alloc: Global) -> Result<usize, AllocError> {
    let chars = [
        NChar::Data(1),
        NChar::Data(2),
        NChar::Eop,
        NChar::Data(3),
        NChar::Eep,
        NChar::Data(4),
        NChar::Eop,
        NChar::Data(5),
    ];
    let (whole, used) = packets(alloc, &chars)?;
    if whole.len() == 3 { Ok(used) } else { Ok(0) }
}

/// A target with 64 bytes.
const CONFIG: TargetConfig = TargetConfig {
    logical: 254,
    key: 0,
    start: 0xA000_0000,
    size: 64,
    slots: 2,
};

/// Writes 16 bytes, which are acknowledged.
const WRITE: &[u8] = b"\xFE\x01\x6C\x00\x67\x00\x00\x00\xA0\x00\x00\x00\x00\x00\x10\x9F\
\x01\x23\x45\x67\x89\xAB\xCD\xEF\x10\x11\x12\x13\x14\x15\x16\x17\x56";

/// Reads them.
pub const READ: &[u8] = b"\xFE\x01\x4C\x00\x67\x00\x01\x00\xA0\x00\x00\x00\x00\x00\x10\xC9";

fn add_bytes(alloc: Global, name: &str, bytes: &[u8], text: &mut String) -> Result<(), AllocError> {
    let digits = encode_upper(alloc, bytes)?;
    write!(text, "{name} {digits}\n")
}

/// Adds the reply to the packet, at once or again after a refusal that left the memory as it was.
fn add_reply(
    alloc: Global,
    target: &mut Target,
    bytes: &[u8],
    text: &mut String,
) -> Result<(), AllocError> {
    let before = Vec::from_slice(alloc, target.memory())?;
    let mut reply = target.answer(alloc, bytes, End::Eop);
    if reply.is_err() && target.memory() == before.as_slice() {
        reply = target.answer(alloc, bytes, End::Eop);
    }
    match reply {
        Ok(Some(reply)) => add_bytes(alloc, "reply", &reply, text),
        _ => write!(text, "there is no reply\n"),
    }
}

/// Adds what a target answers to a write and to a read, and its memory then.
///
/// # Errors
///
/// There is no memory for the target, or for the text.
pub fn add_answers(alloc: Global, text: &mut String) -> Result<(), AllocError> {
    let mut target = Target::new(alloc, CONFIG)?;
    add_reply(alloc, &mut target, WRITE, text)
        .and(add_reply(alloc, &mut target, READ, text))
        .and(add_bytes(alloc, "memory", target.memory(), text))
}
