//! The command of a flow to its target.
ghost use Rattle.std.specs.Prelude.{◌≡◌, ◌≤◌, IfOk, length, option_map};
ghost use Rattle.sw_app_rmap.specs.FlowCommands.{bytes_to, initiator_of, padded, path_back, units};
ghost use Rattle.sw_app_rmap.specs.Orders.{IsSmall, order_view};

use crate::order::RmapOrder;
use std::alloc::{AllocError, Global};
use sw_config::Reply;
use sw_rmap::{Command, Instruction, TargetConfig, write_command};

/// The initiator logical address that stands for none.
const NO_INITIATOR: u8 = 254;

/// The path back; none where the flow has no replies.
fn path_back(reply: Option<&Reply>) -> &[u8]
    ensures { result.now ≡ path_back (option_map (λ r. r.now) reply.entry) }
{
    match reply {
        Some(reply) => reply.path(),
        None => &[],
    }
}

fn initiator_of(reply: Option<&Reply>) -> u8
    ensures { result ≡ initiator_of (option_map (λ r. r.now) reply.entry) }
{
    match reply {
        Some(reply) => reply.initiator(),
        None => NO_INITIATOR,
    }
}

/// How many units of four bytes hold the path.
fn units(path: &[u8]) -> usize
    requires { length path.now ≤ 12 }
    ensures value { result ≡ units path.now }
    ensures few { result ≤ 3 }
{
    (path.len() + 3) / 4
}

/// The path behind zeros that fill up its units.
fn pad(alloc: Global, path: &[u8]) -> Result<Vec<u8>, AllocError>
    requires { length path.now ≤ 12 }
    ensures { IfOk result (λ v. v.items ≡ padded path.now) }
{
    let mut bytes = vec![in alloc; 0; 4 * units(path) - path.len()]?;
    bytes.extend_from_slice(path)?;
    Ok(bytes)
}

/// The bytes of the command that is asked for.
///
/// # Errors
///
/// There is no memory for them.
pub(crate) fn bytes_to(
    alloc: Global,
    target: TargetConfig,
    reply: Option<&Reply>,
    order: &RmapOrder,
) -> Result<Vec<u8>, AllocError>
    requires path { length (path_back (option_map (λ r. r.now) reply)) ≤ 12 }
    requires small { IsSmall (order_view order.now) }
    ensures { IfOk result (λ v. v.items ≡ bytes_to target (option_map (λ r. r.now) reply.entry) (order_view order.now)) }
{
    let path = path_back(reply);
    let reply_address = pad(alloc, path)?;
    let action = &order.action;
    let instruction = Instruction::incrementing(
        action.is_write(),
        action.wants_reply(),
        units(path),
    );
    let command = Command::new(
        target.logical,
        instruction.byte(),
        target.key,
        &reply_address,
        initiator_of(reply),
        order.transaction,
        order.address,
        action.length() as u32,
    )
    .unwrap();
    write_command(alloc, &command, action.data())
}
