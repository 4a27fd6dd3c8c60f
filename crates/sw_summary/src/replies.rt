//! Replies among packets.
ghost use Rattle.std.specs.Prelude.{◌≡◌, ◌≤◌, true, length};
ghost use Rattle.sw_summary.specs.Replies.{head_len, is_reply, status_name};

use sw_rmap::{Instruction, PROTOCOL, crc};

/// How many bytes the header of a reply has before its CRC.
fn head_len(instruction: Instruction) -> usize
    ensures { result ≡ head_len instruction }
{
    if instruction.is_write() { 7 } else { 11 }
}

/// Whether the bytes are a reply from the initiator's logical address on.
pub(crate) fn is_reply(bytes: &[u8]) -> bool
    ensures value { result ≡ is_reply bytes.now }
    ensures some { result ≡ true → 8 ≤ length bytes.now }
{
    if bytes.len() < 8 {
        return false;
    }
    let instruction = Instruction::from_byte(bytes[2]);
    let head = head_len(instruction);
    if bytes[1] != PROTOCOL || instruction.is_command() || bytes.len() <= head {
        return false;
    }
    crc(&bytes[..head]) == bytes[head]
}

/// The standard's name of a status.
pub(crate) fn status_name(status: u8) -> &'static str
    ensures { result.now ≡ status_name status }
{
    match status {
        1 => "General error code",
        2 => "Unused RMAP packet type or command code",
        3 => "Invalid key",
        4 => "Invalid data CRC",
        5 => "Early EOP",
        6 => "Too much data",
        7 => "EEP",
        9 => "Verify buffer overrun",
        10 => "RMAP command not implemented or not authorised",
        11 => "RMW data length error",
        12 => "Invalid target logical address",
        _ => "Reserved",
    }
}
