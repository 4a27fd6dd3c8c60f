//! How many commands are unanswered at each node that has a limit.
ghost use Rattle.std.specs.Prelude.{◌≡◌, ◌-◌, ◌^◌, IfOk, get_or, length};
ghost use Rattle.sw_net.specs.Unanswered.{AllowedIsWithin, CountedAtFirst, CountedWithEachStep, CountsAreUnanswered, limited_target, one_more_at};

use std::alloc::{AllocError, Global};
use std::marker::Model;
use sw_config::Network;

/// How many commands are unanswered at each node that has a limit on them, as long as each step is made by this: by node, the commands
/// that were begun for it, and the replies that it has sent whole. What is unanswered is the difference: a packet that went astray may
/// ask a node for a reply too, so a count of what is unanswered alone would not tell it in a network that is misrouted.
#[derive(Drop)]
pub struct Unanswered {
    begun: Vec<u64>,
    sent: Vec<u64>,
}

impl Model for Unanswered {
    ghost use Rattle.sw_net.specs.Unanswered.{Counts};

    ghost Value = { Counts };

    ghost view = { λ u. record { begun = u.begun.items; sent = u.sent.items } };
}

/// The node where the flow's packets are answered, if it has a limit.
#[inline(always)]
fn limited_target(network: &Network, flow: u16) -> Option<u16>
    ensures { result ≡ limited_target network.now flow }
{
    if flow >= network.flows() {
        return None;
    }
    let entry = network.flow(flow);
    if entry.reply().is_some() && network.limit_at(entry.to()).is_some() {
        Some(entry.to())
    } else {
        None
    }
}

/// How many are counted of the node.
#[inline(always)]
fn count_at(counts: &[u64], node: u16) -> u64
    ensures { result ≡ get_or counts.now node 0 }
{
    match counts.get(usize::from(node)) {
        Some(count) => *count,
        None => 0,
    }
}

/// Counts one more of the node.
#[inline(always)]
fn count_one(counts: &mut [u64], node: u16)
    ensures { counts.new ≡ one_more_at (2 ^ 64 - 1) counts.old node }
{
    let node = usize::from(node);
    if node < counts.len() && counts[node] < u64::MAX {
        counts[node] += 1;
    }
}

impl Unanswered {
    ghost use Rattle.sw_net.specs.Unanswered.{allows, nothing_counted, unanswered_at, with_begun, with_sent};

    /// None at each node of the network.
    ///
    /// # Errors
    ///
    /// There is no memory for the counts.
    pub fn new(alloc: Global, network: &Network) -> Result<Unanswered, AllocError>
        ensures { IfOk result (λ u. u ≡ nothing_counted (length network.now.nodes)) }
    {
        let nodes = usize::from(network.nodes());
        Ok(Unanswered {
            begun: vec![in alloc; 0; nodes]?,
            sent: vec![in alloc; 0; nodes]?,
        })
    }

    /// How many commands are unanswered at the node: 0 where it has no limit.
    #[inline(always)]
    pub fn at(&self, node: u16) -> u64
        ensures { result ≡ unanswered_at self.now node }
    {
        count_at(&self.begun, node).saturating_sub(count_at(&self.sent, node))
    }

    /// May a packet of the flow be begun? Where the node at its end answers it, and has a limit, one command more has to be within that.
    #[inline(always)]
    pub fn allows(&self, network: &Network, flow: u16) -> bool
        ensures { result ≡ allows network.now self.now flow }
    {
        let Some(node) = limited_target(network, flow) else {
            return true;
        };
        match network.limit_at(node) {
            Some(limit) => self.at(node) < u64::from(limit),
            None => true,
        }
    }

    /// Counts a packet of the flow that was begun.
    #[inline(always)]
    pub(crate) fn begin(&mut self, network: &Network, flow: u16)
        ensures { self.new ≡ with_begun network.now self.old flow }
    {
        if let Some(node) = limited_target(network, flow) {
            count_one(&mut self.begun, node);
        }
    }

    /// Counts a reply that the node has sent whole.
    #[inline(always)]
    pub(crate) fn settle(&mut self, node: u16)
        ensures { self.new ≡ with_sent self.old node }
    {
        count_one(&mut self.sent, node);
    }
}

/// What the counts say, if they are kept as steps are made: what is unanswered at each node that has a limit; and whether a packet that its
/// flow declares may be begun. The function does nothing: it is the proof of its clauses.
pub fn counts_are_unanswered()
    ensures first { CountedAtFirst }
    ensures each_step { CountedWithEachStep }
    ensures unanswered { CountsAreUnanswered }
    ensures allowed { AllowedIsWithin }
{}
