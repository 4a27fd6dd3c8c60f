//! A new node.
ghost use Rattle.std.specs.Prelude.{◌≡◌, IfOk, IfSome};
ghost use Rattle.sw_link.specs.Ends.{IsCapacity};
ghost use Rattle.sw_node.specs.Node.{new_node};
ghost use Rattle.sw_rmap.specs.Targets.{slots_of};
ghost use Rattle.sw_rmap.specs.Config.{IsTargetConfig};

use crate::cell::NodeCell;
use crate::sending::Sending;
use circular_buffer::HeapCircularBuffer;
use std::alloc::{AllocError, Global};
use sw_link::{RxEnd, TxEnd};
use sw_rmap::{Target, TargetConfig};

/// How many replies it may owe. A plain node never owes one.
fn slots(config: Option<TargetConfig>) -> usize
    ensures { result ≡ slots_of config }
{
    match config {
        Some(config) => config.slots as usize,
        None => 1,
    }
}

impl NodeCell {
    /// A node whose receive buffer holds `capacity` N-Chars, 8 to 4,096: a plain one, or an RMAP
    /// target. Its buffer, its memory and the room for the replies that wait are made here.
    ///
    /// # Errors
    ///
    /// There is no memory for what the node keeps.
    pub fn new(
        alloc: Global,
        target: Option<TargetConfig>,
        capacity: usize,
    ) -> Result<NodeCell, AllocError>
        requires target { IfSome target IsTargetConfig }
        requires capacity { IsCapacity capacity }
        ensures { IfOk result (λ node. node ≡ new_node target capacity) }
    {
        Ok(NodeCell {
            received: RxEnd::new(alloc, capacity)?,
            pending: HeapCircularBuffer::with_capacity(alloc, slots(target))?,
            target: match target {
                Some(config) => Some(Target::new(alloc, config)?),
                None => None,
            },
            credit: TxEnd::new(),
            sending: Sending::nothing(alloc),
            owed: 0,
            packets: Vec::new(alloc),
            bytes: Vec::new(alloc),
        })
    }
}
