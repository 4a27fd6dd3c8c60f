//! A reply that waits to be sent.
ghost use Rattle.std.specs.Prelude.{◌≡◌, ◌++◌, IfOk, OnErr, OnOk, length};
ghost use Rattle.sw_rmap.specs.Owing.{reply_packet};
ghost use Rattle.sw_rmap.specs.Targets.{answer_of, memory_after};
ghost use Rattle.sw_node.specs.Changes.{with_memory};
ghost use Rattle.sw_node.specs.Node.{config_of, memory_of};

use crate::part::PendingReply;
use crate::sending::Sending;
use std::alloc::{AllocError, Global};
use std::marker::Model;
use sw_char::End;
use sw_rmap::laws::answers_by_the_way_back;
use sw_rmap::{Target, reply_to};

/// A reply (ECSS-E-ST-50-52C, reply fields), and how many of its bytes are the address that it
/// goes to.
#[derive(Drop)]
pub(crate) struct ReplyBytes {
    bytes: Vec<u8>,
    address: usize,
}

impl Model for ReplyBytes {
    ghost use Rattle.std.specs.Prelude.{◌≤◌, drop, length, take};
    ghost use Rattle.sw_rmap.specs.Owing.{PendingReply};

    ghost Value = { PendingReply };

    ghost view = { λ r. record { address = take r.address r.bytes.items; cargo = drop r.address r.bytes.items } };

    ghost invariant = { λ r. r.address ≤ length r.bytes.items };
}

impl ReplyBytes {
    /// How many characters it has, with its marker.
    pub(crate) fn len(&self) -> u64
        ensures { result ≡ length (reply_packet self.now) }
    {
        self.bytes.len() as u64 + 1
    }

    /// Its characters, to be sent.
    pub(crate) fn into_sending(self) -> Sending
        ensures { result ≡ reply_packet self }
    {
        Sending::packet(self.bytes, End::Eop)
    }
}

/// Puts copies of the replies that wait behind the others.
pub(crate) fn push_replies(
    replies: &mut Vec<PendingReply>,
    alloc: Global,
    waiting: &[ReplyBytes],
) -> Result<(), AllocError>
    ensures { OnOk result (replies.new.items ≡ replies.old.items ++ waiting.now) }
{
    for reply in waiting {
        let (front, back) = reply.bytes.split_at(reply.address);
        let address = Vec::from_slice(alloc, front)?;
        let cargo = Vec::from_slice(alloc, back)?;
        replies.push(PendingReply { address, cargo })?;
    }
    Ok(())
}

/// Hands the packet to the target, and makes the reply to it if it gets one: a plain node answers
/// nothing. After want of memory nothing is stored.
pub(crate) fn answer(
    target: &mut Option<Target>,
    alloc: Global,
    bytes: &[u8],
    end: End,
) -> Result<Option<ReplyBytes>, AllocError>
    ensures reply { IfOk result (λ reply. reply ≡ answer_of (config_of target.old) (memory_of target.old) bytes.now end) }
    ensures target { OnOk result (target.new ≡ with_memory target.old (memory_after (config_of target.old) (memory_of target.old) bytes.now end)) }
    ensures err { OnErr result (target.new ≡ target.old) }
{
    let Some(target) = target else {
        return Ok(None);
    };
    answers_by_the_way_back();
    let address = match reply_to(alloc, bytes)? {
        Some(way) => way.len(),
        None => 0,
    };
    match target.answer(alloc, bytes, end)? {
        Some(bytes) => Ok(Some(ReplyBytes { bytes, address })),
        None => Ok(None),
    }
}
