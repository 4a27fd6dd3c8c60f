//! Which statuses the replies that came out have.
ghost use Rattle.std.specs.Prelude.{◌≡◌, ◌++◌, IfOk, map, string_bytes};
ghost use Rattle.sw_summary.specs.Counts.{statuses};
ghost use Rattle.sw_summary.specs.Texts.{status_lines};

use crate::replies::{is_reply, status_name};
use std::alloc::{AllocError, Global};
use std::fmt::Write;
use sw_char::Packet;

/// The statuses of all replies that came out.
fn statuses(alloc: Global, out: &[Vec<Packet>]) -> Result<Vec<u8>, AllocError>
    ensures { IfOk result (λ all. all.items ≡ statuses (map (λ packets. packets.items) out.now)) }
{
    let mut all = Vec::new(alloc);
    for packets in out {
        for packet in packets.as_slice() {
            if !is_reply(&packet.bytes) {
                continue;
            }
            all.push(packet.bytes[3])?;
        }
    }
    Ok(all)
}

/// Adds a line for each status but 0 that a reply has.
pub(crate) fn add_statuses(
    alloc: Global,
    out: &[Vec<Packet>],
    text: &mut String,
) -> Result<(), AllocError>
    ensures { IfOk result (λ _. string_bytes text.new ≡ string_bytes text.old ++ status_lines (map (λ packets. packets.items) out.now)) }
{
    let all = statuses(alloc, out)?;
    for number in 1..256u16 {
        let status = number as u8;
        let mut count = 0usize;
        for other in &all {
            if *other != status {
                continue;
            }
            count += 1;
        }
        if count == 0 {
            continue;
        }
        let name = status_name(status);
        write!(text, "replies with status {status} ({name}): {count}\n")?;
    }
    Ok(())
}
