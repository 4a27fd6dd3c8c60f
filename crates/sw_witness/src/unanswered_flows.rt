//! The flows whose replies can't happen.
ghost use Rattle.std.specs.Prelude.{◌≡◌, IfOk};
ghost use Rattle.sw_witness.specs.Unanswered.{can_not_be_answered, has_other_instruction, has_other_protocol, is_of_answered, never_answered};

use std::alloc::{AllocError, Global};
use std::marker::Model;
use sw_config::{Flow, Network};
use sw_machine::left_bytes;
use sw_rmap::{Instruction, PROTOCOL};

/// Is the protocol identifier left, and another than RMAP's?
fn has_other_protocol(left: &[u8]) -> bool
    ensures { result ≡ has_other_protocol left.now }
{
    match left.get(1) {
        Some(protocol) => *protocol != PROTOCOL,
        None => false,
    }
}

/// Is the instruction one of a command that wants a reply?
fn is_of_answered(instruction: Instruction) -> bool
    ensures { result ≡ is_of_answered instruction }
{
    instruction.is_command() && instruction.wants_reply()
}

/// Is the instruction left, and none of a command that is answered by this path?
fn has_other_instruction(left: &[u8], path: &[u8]) -> bool
    ensures { result ≡ has_other_instruction left.now path.now }
{
    match left.get(2) {
        Some(byte) => {
            let instruction = Instruction::from_byte(*byte);
            !is_of_answered(instruction) || instruction.reply_address_len() < path.len()
        }
        None => false,
    }
}

/// Has the flow replies that no packet of it can ask for?
fn can_not_be_answered(flow: &Flow) -> bool
    ensures { result ≡ can_not_be_answered flow.now }
{
    match flow.reply() {
        Some(reply) => {
            let left = left_bytes(flow);
            has_other_protocol(left) || has_other_instruction(left, reply.path())
        }
        None => false,
    }
}

/// The numbers of the flows whose replies can't happen, in their order: no packet that such a flow declares can begin a command that its
/// target answers by the flow's path (ECSS-E-ST-50-52C, the fields of write and read commands). A flow that is not among them may still
/// never be answered.
///
/// # Errors
///
/// There is no memory for them.
pub fn never_answered(alloc: Global, network: &Network) -> Result<Vec<u16>, AllocError>
    ensures { IfOk result (λ v. v.items ≡ never_answered network.now) }
{
    let mut numbers = Vec::new(alloc);
    for number in 0..network.declared_flows() {
        if !can_not_be_answered(network.flow(number)) {
            continue;
        }
        numbers.push(number)?;
    }
    Ok(numbers)
}
