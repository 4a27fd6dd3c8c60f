//! A target's cell, and the machine's step by which a node takes a packet.
ghost use Rattle.std.specs.Prelude.{IfSome};
ghost use Rattle.sw_link.specs.Ends.{IsCapacity};
ghost use Rattle.sw_rmap.specs.Config.{IsTargetConfig};

use std::alloc::Global;
use sw_cell::node;
use sw_char::{End, NChar};
use sw_node::NodeCell;
use sw_rmap::TargetConfig;

const TARGET: TargetConfig = TargetConfig {
    logical: 0xFE,
    key: 0,
    start: 0,
    size: 16,
    slots: 1,
};

/// A packet is sent to its end.
fn sends(alloc: Global, node: &mut NodeCell) -> bool {
    if !node.can_begin() || node.begin(alloc, &[3], &[0xAA], End::Eep).is_err() {
        return false;
    }
    if node.can_begin() || node.credit() != 0 {
        return false;
    }
    node.fct_in();
    for _ in 0..3usize {
        if !node.can_emit() {
            return false;
        }
        let _ = node.emit();
    }
    node.can_begin()
}

/// A packet comes out.
fn receives(alloc: Global, node: &mut NodeCell) -> bool {
    if !node.can_issue() {
        return false;
    }
    node.issue();
    for character in &[NChar::Data(0xAA), NChar::Eop] {
        if node.outstanding() == 0 {
            return false;
        }
        node.arrive(*character);
        if !node.can_accept() || node.accept(alloc).is_err() {
            return false;
        }
    }
    match node.came_out(alloc) {
        Ok(packets) => packets.len() == 1,
        Err(_) => false,
    }
}

/// The machine's step takes nothing before something came.
fn takes_what_came(alloc: Global, node: &mut NodeCell) -> bool {
    if !node::can_begin(0, node) || !matches!(node::accept(alloc, 0, node), Ok(false)) {
        return false;
    }
    if !node.can_issue() {
        return false;
    }
    node.issue();
    if node.outstanding() == 0 {
        return false;
    }
    node.arrive(NChar::Eop);
    matches!(node::accept(alloc, 0, node), Ok(true)) && node.packets().len() == 1
}

enum Work {
    Send,
    Receive,
    TakeWhatCame,
}

/// One function alone owns a cell: to let one go is dear to prove.
fn works(alloc: Global, target: Option<TargetConfig>, capacity: usize, work: &Work) -> bool
    requires target { IfSome target IsTargetConfig }
    requires capacity { IsCapacity capacity }
{
    match NodeCell::new(alloc, target, capacity) {
        Ok(mut node) => {
            let does_it = match work {
                Work::Send => sends(alloc, &mut node),
                Work::Receive => receives(alloc, &mut node),
                Work::TakeWhatCame => takes_what_came(alloc, &mut node),
            };
            drop(node);
            does_it
        }
        Err(_) => false,
    }
}

/// Nodes send and take packets.
pub(crate) fn carry_packets(alloc: Global) -> bool {
    works(alloc, Some(TARGET), 64, &Work::Send)
        && works(alloc, Some(TARGET), 64, &Work::Receive)
        && works(alloc, None, 8, &Work::TakeWhatCame)
}
