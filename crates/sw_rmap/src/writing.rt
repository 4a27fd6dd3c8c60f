//! Commands as bytes.
ghost use Rattle.std.specs.Prelude.{◌≡◌, ◌++◌, length, IfOk, OnOk};
ghost use Rattle.sw_rmap.specs.Crc.{with_crc};
ghost use Rattle.sw_rmap.specs.Commands.{carried_len, header_of, written};

use crate::checksum::crc;
use crate::command::{Command, PROTOCOL};
use std::alloc::{AllocError, Global};

/// The bytes of a command: its header with its CRC and, of a write, the data with theirs
/// (ECSS-E-ST-50-52C, the fields of a command).
///
/// # Errors
///
/// There is no memory for the bytes.
#[tactic(auto, unfolding(crate::specs::Commands::written))]
pub fn write_command(alloc: Global, command: &Command, body: &[u8]) -> Result<Vec<u8>, AllocError>
    requires { length body.now ≡ carried_len command.now }
    ensures { IfOk result (λ bytes. bytes.items ≡ written command.now body.now) }
{
    let mut bytes = header(alloc, command)?;
    let code = crc(&bytes);
    bytes.push(code)?;
    if command.bits().is_write() {
        push_with_crc(&mut bytes, body)?;
    }
    Ok(bytes)
}

/// The header of a command without its code.
fn header(alloc: Global, command: &Command) -> Result<Vec<u8>, AllocError>
    ensures { IfOk result (λ bytes. bytes.items ≡ header_of command.now) }
{
    let front = [
        command.logical(),
        PROTOCOL,
        command.instruction(),
        command.key(),
    ];
    let initiator = command.initiator();
    let [t1, t0] = command.transaction().to_be_bytes();
    let [_, _, _, a4, a3, a2, a1, a0] = command.address().to_be_bytes();
    let [_, l2, l1, l0] = command.length().to_be_bytes();
    let back = [initiator, t1, t0, a4, a3, a2, a1, a0, l2, l1, l0];
    [front.as_slice(), command.reply_address(), back.as_slice()].concat(alloc)
}

/// Adds the bytes, and then their code.
pub(crate) fn push_with_crc(out: &mut Vec<u8>, bytes: &[u8]) -> Result<(), AllocError>
    ensures { OnOk result (out.new.items ≡ out.old.items ++ with_crc bytes.now) }
{
    out.extend_from_slice(bytes)?;
    out.extend_from_slice(&[crc(bytes)])
}
