//! Which flows are limited in how many of their commands may be unanswered, and which nodes always take what comes.
ghost use Rattle.std.specs.Prelude.{◌≡◌, ◌*◌, ◌<◌, ◌≤◌, ◌==◌, ◌&&◌, ◌||◌, false, length, nat_lt, not, slice_get, IfOk, IfSome};
ghost use Rattle.std.specs.Option.{option_map_or};
ghost use Rattle.sw_rmap.specs.Targets.{slots_of};
ghost use Rattle.sw_config.specs.Entries.{all_flows, target_of};

use crate::network::Network;
use std::alloc::{AllocError, Global};

impl Network {
    ghost use Rattle.sw_config.specs.Limits.{is_limited, limit_at, always_takes, may_make_wait, waiting_marks};

    /// Is it a flow of commands, of which only so many may be unanswered at once, by its own limit or by that of the node that sends
    /// them? A flow of replies is not.
    pub fn is_limited(&self, flow: u16) -> bool
        requires { flow < length (all_flows self.now) }
        ensures { result ≡ option_map_or (is_limited self.now.nodes) (slice_get (all_flows self.now) flow) false }
    {
        let flow = self.flow(flow);
        let Some(reply) = flow.reply() else {
            return false;
        };
        reply.outstanding().is_some() || self.outstanding(flow.from()).is_some()
    }

    /// How many commands may be unanswered at the node at once, those of all nodes together: at most 4,096 times 65,535. None where
    /// there is no such node, where it answers no commands, and where a flow of commands to it is not limited.
    pub fn limit_at(&self, node: u16) -> Option<u32>
        ensures limit { result ≡ limit_at self.now node }
        ensures high { IfSome result (λ l. l ≤ 4096 * 65535) }
        ensures within { IfSome result (λ l. node < length self.now.nodes) }
    {
        self.limits.limit_at(node)
    }

    /// Does the node answer commands, and take what comes however many replies it owes? Then fewer commands may be unanswered there than
    /// replies may be owed; or as many, where each flow that ends there is limited.
    pub fn always_takes(&self, node: u16) -> bool
        ensures { result ≡ always_takes self.now node }
    {
        let Some(limit) = self.limit_at(node) else {
            return false;
        };
        has_room(limit, self.slots(node), self.limits.takes_others(node))
    }

    /// Does the node answer commands, and may what comes there have to wait until it has sent a reply?
    pub fn may_make_wait(&self, node: u16) -> bool
        ensures { result ≡ may_make_wait self.now node }
    {
        self.limits.is_answering(node) && !self.always_takes(node)
    }

    /// For each node, in order, whether what comes there may have to wait until it has sent a reply.
    ///
    /// # Errors
    ///
    /// There is no memory for the marks.
    pub fn waiting_nodes(&self, alloc: Global) -> Result<Vec<bool>, AllocError>
        ensures { IfOk result (λ v. v.items ≡ waiting_marks self.now) }
    {
        let mut marks = Vec::new(alloc);
        for node in 0..self.nodes() {
            marks.push(self.may_make_wait(node))?;
        }
        Ok(marks)
    }

    /// How many replies the node may owe.
    fn slots(&self, node: u16) -> u8
        requires { node < length self.now.nodes }
        ensures { result ≡ slots_of (target_of self.now.nodes node) }
    {
        match self.target(node) {
            Some(target) => target.slots,
            None => 1,
        }
    }
}

/// Is there room for each command, with so many that may be unanswered and so many replies that may be owed, where others end there too
/// or do not?
fn has_room(limit: u32, slots: u8, others: bool) -> bool
    ensures { result ≡ (nat_lt limit slots || limit == slots && not others) }
{
    let slots = u32::from(slots);
    limit < slots || limit == slots && !others
}
