//! Where the reply to a packet goes, and how many characters it has.
ghost use Rattle.std.specs.Option.{option_map_or};
ghost use Rattle.std.specs.Prelude.{◌≡◌, ◌+◌, ◌<◌, ◌≤◌, ◌++◌, ◌∷◌, [], ◌↔◌, IfSome, IsTrue, is_some, length, option_map, take};
ghost use Rattle.sw_flow.specs.Entries.{target_of};
ghost use Rattle.sw_flow.specs.Valid.{IsFlow};
ghost use Rattle.sw_machine.specs.Rmap.{answered_to};
ghost use Rattle.sw_rmap.specs.Targets.{longest_reply};
ghost use Rattle.sw_machine.specs.DeclaredPackets.{IsRightWay, left_bytes, reply_address};
ghost use Rattle.sw_rmap.specs.Replies.{path_of, reply_to};

use arrayvec::ArrayVec;
use std::marker::Model;
use sw_flow::{Flow, MAX_ADDRESS, Network, Reply};
use sw_rmap::Command;

/// A header has at most this many bytes (ECSS-E-ST-50-52C, the fields of a command).
const MAX_HEADER: usize = 28;

/// What a reply has behind its address but for its data, at most, with its end marker.
const REPLY_FRAME: u32 = 13;

/// The last bytes of the flow's address, which its packets still begin with where they end: as many as the flow says, or the whole address
/// if it has no more.
pub fn left_bytes(flow: &Flow) -> &[u8]
    ensures { result.now ≡ left_bytes flow.now }
{
    let address = flow.address();
    &address[address.len().saturating_sub(usize::from(flow.left()))..]
}

/// Whether the reply to the command begins with these address bytes.
fn goes_by(command: &Command, reply: &Reply) -> bool
    ensures { IsTrue result ↔ (path_of command.now ++ command.now.initiator ∷ [] ≡ reply_address reply.now) }
{
    command.path() == reply.path() && command.initiator() == reply.initiator()
}

/// The first bytes of the cargo, as many as a header may have.
fn front(cargo: &[u8]) -> &[u8]
    ensures bytes { result.now ≡ take MAX_HEADER cargo.now }
    ensures few { length result.now ≤ MAX_HEADER }
{
    if cargo.len() > MAX_HEADER {
        &cargo[..MAX_HEADER]
    } else {
        cargo
    }
}

/// The first bytes of a packet, among which is the whole of a command's header.
fn first_bytes(left: &[u8], cargo: &[u8]) -> ArrayVec<u8, 60>
    requires { length left.now ≤ MAX_ADDRESS }
    ensures { result.items ≡ left.now ++ take MAX_HEADER cargo.now }
{
    let mut bytes = ArrayVec::new();
    bytes.try_extend_from_slice(left).unwrap();
    bytes.try_extend_from_slice(front(cargo)).unwrap();
    bytes
}

/// Whether the reply to a packet's bytes, if it gets one, goes where the flow says.
#[tactic(auto, unfolding(sw_rmap::specs::Replies::reply_to))]
fn is_right_way_of(bytes: &[u8], reply: Option<&Reply>) -> bool
    ensures { IsTrue result ↔ IsRightWay (reply_to bytes.now) (option_map (λ r. r.now) reply.entry) }
{
    match Command::read(bytes) {
        Some(command) if command.is_answered() => match reply {
            Some(reply) => goes_by(&command, reply),
            None => false,
        },
        _ => true,
    }
}

/// Whether the reply to a packet, if it gets one, goes where the flow says.
#[tactic(auto, using(crate::proofs::Headers::way_in_first_bytes))]
pub(crate) fn is_right_way(left: &[u8], cargo: &[u8], reply: Option<&Reply>) -> bool
    requires { length left.now ≤ MAX_ADDRESS }
    ensures { IsTrue result ↔ IsRightWay (reply_to (left.now ++ cargo.now)) (option_map (λ r. r.now) reply.entry) }
{
    let bytes = first_bytes(left, cargo);
    is_right_way_of(bytes.as_slice(), reply)
}

/// The length of the path back.
fn path_length(command: &Command) -> u32
    ensures length { result ≡ length (path_of command.now) }
    ensures few { result ≤ 12 }
{
    // Names the command's form, which bounds its reply address.
    let _instruction = command.instruction();
    command.path().len() as u32
}

/// How many bytes the address of the reply to these bytes has, if they get one.
#[tactic(auto, unfolding(sw_rmap::specs::Replies::reply_to))]
fn way_length(bytes: &[u8]) -> Option<u32>
    ensures length { result ≡ option_map (λ way. length way) (reply_to bytes.now) }
    ensures few { IfSome result (λ n. n ≤ 13) }
{
    match Command::read(bytes) {
        Some(command) if command.is_answered() => Some(path_length(&command) + 1),
        _ => None,
    }
}

/// The same of a packet of the flow.
#[tactic(auto, using(crate::proofs::Headers::way_in_first_bytes))]
fn way_length_of(flow: &Flow, cargo: &[u8]) -> Option<u32>
    requires address { length flow.now.address ≤ MAX_ADDRESS }
    requires left { flow.now.left ≤ length flow.now.address }
    ensures length { result ≡ option_map (λ way. length way) (reply_to (left_bytes flow.now ++ cargo.now)) }
    ensures few { IfSome result (λ n. n ≤ 13) }
{
    let bytes = first_bytes(left_bytes(flow), cargo);
    way_length(bytes.as_slice())
}

/// Whether a packet of the flow is a command that wants a reply.
pub(crate) fn is_answered(flow: &Flow, cargo: &[u8]) -> bool
    requires address { length flow.now.address ≤ MAX_ADDRESS }
    requires left { flow.now.left ≤ length flow.now.address }
    ensures { result ≡ is_some (reply_to (left_bytes flow.now ++ cargo.now)) }
{
    way_length_of(flow, cargo).is_some()
}

/// How many characters the longest reply to a packet of the flow has; 0 where it gets none.
pub fn reply_length(network: &Network, flow: &Flow, cargo: &[u8]) -> u32
    requires { IsFlow network.now.nodes flow.now }
    ensures length { result ≡ option_map_or (λ address. length address + (longest_reply (target_of network.now.nodes flow.now.to) + 1)) (answered_to (target_of network.now.nodes flow.now.to) (left_bytes flow.now ++ cargo.now)) 0 }
    ensures few { result ≤ 65562 }
{
    let Some(target) = network.target(flow.to()) else {
        return 0;
    };
    match way_length_of(flow, cargo) {
        Some(way) => way + target.size + REPLY_FRAME,
        None => 0,
    }
}
