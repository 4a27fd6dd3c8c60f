//! Replies, and where they go.
ghost use Rattle.std.specs.Prelude.{◌≡◌, ◌<◌, ◌++◌, [], length, option_map, IfOk, OnOk};
ghost use Rattle.sw_rmap.specs.Replies.{code_of, left_form, reply_to as reply_to_of};

use crate::command::{Command, PROTOCOL};
use crate::status::Status;
use crate::writing::push_with_crc;
use std::alloc::{AllocError, Global};

/// The address bytes that the reply to this packet begins with: the path back, and the initiator
/// logical address (ECSS-E-ST-50-52C, reply fields). None where the packet gets no reply.
///
/// # Errors
///
/// There is no memory for the bytes.
#[tactic(auto, unfolding(crate::specs::Replies::reply_to))]
pub fn reply_to(alloc: Global, bytes: &[u8]) -> Result<Option<Vec<u8>>, AllocError>
    ensures { IfOk result (λ way. option_map (λ w. w.items) way ≡ reply_to_of bytes.now) }
{
    let Some(command) = Command::read(bytes) else {
        return Ok(None);
    };
    if !command.is_answered() {
        return Ok(None);
    }
    let initiator = [command.initiator()];
    let way = [command.path(), initiator.as_slice()].concat(alloc)?;
    Ok(Some(way))
}

/// Puts a reply from the initiator's address on behind the path, with the data that a read found.
pub(crate) fn push_left_form(
    out: &mut Vec<u8>,
    command: &Command,
    status: Status,
    found: &[u8],
) -> Result<(), AllocError>
    requires { length found.now < 16777216 }
    ensures { OnOk result (out.new.items ≡ out.old.items ++ left_form command.now status found.now) }
{
    let bits = command.bits();
    let initiator = command.initiator();
    let instruction = bits.of_reply();
    let status = code(status);
    let logical = command.logical();
    let [t1, t0] = command.transaction().to_be_bytes();
    if bits.is_write() {
        let head = [initiator, PROTOCOL, instruction, status, logical, t1, t0];
        push_with_crc(out, &head)
    } else {
        let [_, l2, l1, l0] = (found.len() as u32).to_be_bytes();
        let head = [
            initiator,
            PROTOCOL,
            instruction,
            status,
            logical,
            t1,
            t0,
            0,
            l2,
            l1,
            l0,
        ];
        push_with_crc(out, &head)?;
        push_with_crc(out, found)
    }
}

fn code(status: Status) -> u8
    ensures { result ≡ code_of status }
{
    status as u8
}
