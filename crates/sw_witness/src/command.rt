//! A command that its target answers at length.
ghost use Rattle.std.specs.Prelude.{◌<◌, length};
ghost use Rattle.sw_config.specs.Entries.{all_flows};

use std::alloc::{AllocError, Global};
use sw_config::{Network, Reply};
use sw_machine::left_bytes;
use sw_rmap::{Instruction, PROTOCOL, TargetConfig, crc};

/// What stands before a reply address that is no multiple of four bytes.
const ZEROS: &[u8] = &[0, 0, 0];

/// How many bytes the header of a command has from its transaction identifier on, but for its code.
const FROM_IDENTIFIER: usize = 10;

/// The header but for its code: a read of the whole window, answered by the path.
fn header(
    alloc: Global,
    target: &TargetConfig,
    reply: &Reply,
    identifier: u16,
) -> Result<Vec<u8>, AllocError> {
    let path = reply.path();
    // The reply address has 0 to 3 units of four bytes.
    let units = (path.len().saturating_add(3) / 4).min(3);
    let read = Instruction::incrementing(false, true, units);
    let front = [target.logical, PROTOCOL, read.byte(), target.key];
    let zeros = &ZEROS[..(4 - path.len() % 4) % 4];
    let [high, low] = identifier.to_be_bytes();
    let initiator = [reply.initiator(), high, low];
    let start = target.start.to_be_bytes();
    let size = target.size.to_be_bytes();
    [
        front.as_slice(),
        zeros,
        path,
        initiator.as_slice(),
        &start[3..],
        &size[1..],
    ]
    .concat(alloc)
}

/// Adds what follows the address in a command of the flow with that transaction identifier, if it has replies, and ends at a target: a
/// header and its code, but for the bytes in front that are left of the address. Whether the identifier is not among these.
pub(crate) fn add_command(
    alloc: Global,
    network: &Network,
    flow: u16,
    identifier: u16,
    cargo: &mut Vec<u8>,
) -> Result<bool, AllocError>
    requires { flow < length (all_flows network.now) }
{
    let entry = network.flow(flow);
    let Some(reply) = entry.reply() else {
        return Ok(false);
    };
    let Some(target) = network.target(entry.to()) else {
        return Ok(false);
    };
    let header = header(alloc, &target, reply, identifier)?;
    let left = left_bytes(entry);
    let bytes = &header[left.len().min(header.len())..];
    let mut code = crc(left);
    for byte in bytes {
        code = crc(&[code ^ byte]);
    }
    cargo.extend_from_slice(bytes)?;
    cargo.extend_from_slice(&[code])?;
    Ok(bytes.len() >= FROM_IDENTIFIER)
}
