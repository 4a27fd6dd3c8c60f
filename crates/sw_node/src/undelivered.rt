//! What a node has still to send.
ghost use Rattle.std.specs.Prelude.{◌≡◌, ◌+◌, ◌<◌, ◌^◌, length};
ghost use Rattle.sw_rmap.specs.Owing.{length_pending};

use crate::cell::NodeCell;
use crate::reply::ReplyBytes;

/// How many characters the replies have.
fn replies_len(replies: &[ReplyBytes]) -> u64
    requires { length_pending replies.now < 2 ^ 64 }
    ensures { result ≡ length_pending replies.now }
{
    let mut count: u64 = 0;
    for reply in replies {
        count += reply.len();
    }
    count
}

impl NodeCell {
    /// How many characters it has still to send, those of the replies that wait with them. They
    /// have to be fewer than 2^64.
    pub fn undelivered(&self) -> u64
        requires { length self.now.to_send + length_pending self.now.pending < 2 ^ 64 }
        ensures { result ≡ length self.now.to_send + length_pending self.now.pending }
    {
        let (first, second) = self.pending.as_slices();
        self.sending.len() as u64 + (replies_len(first) + replies_len(second))
    }
}
