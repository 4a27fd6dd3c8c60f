//! Which changes touch nothing that a cycle of dependencies uses.
ghost use Rattle.std.specs.Prelude.{◌≡◌, ◌<◌, IsTrue, false, true, ℕ};
ghost use Rattle.sw_route.specs.Looks.{covers};
ghost use Rattle.sw_mend.specs.Spared.{BothSpareOne, IsEntryUnused, IsSpared, IsSplitSpared, SparesCommands, SparesFlows, SparesLooks, SparesOne, SparesReplies, SplitSparesOne, is_used};

use crate::change::Change;
use crate::flows::{loses_flow, loses_reply};
use crate::uses::Uses;
use std::alloc::{AllocError, Global};
use std::marker::Model;
use sw_config::Network;
use sw_route::Route;

/// Does a flow come to the switch with that leading byte?
fn is_used(bytes: &[bool], switch: u16, byte: usize) -> bool
    requires { byte < 256 }
    ensures { result ≡ is_used bytes.now switch byte }
{
    let number = 256 * usize::from(switch) + byte;
    if number < bytes.len() {
        bytes[number]
    } else {
        true
    }
}

/// Does no flow come to the switch with a byte that the entry is for?
fn spares_entry(route: &Route, switch: u16, bytes: &[bool]) -> bool
    ensures { IsTrue result → (byte : ℕ) → covers byte route.now ≡ true → is_used bytes.now switch byte ≡ false }
{
    for byte in usize::from(route.first)..usize::from(route.last) + 1 {
        if is_used(bytes, switch, byte) {
            return false;
        }
    }
    true
}

/// Does no flow come to the switch with a byte that the entry of that number is for?
fn spares_entry_at(network: &Network, switch: u16, entry: usize, bytes: &[bool]) -> bool
    ensures { IsTrue result → IsEntryUnused network.now switch entry bytes.now }
{
    if switch >= network.switches() {
        return false;
    }
    let routes = network.routes(switch);
    entry < routes.len() && spares_entry(&routes[entry], switch, bytes)
}

/// Does the change leave what these bytes name where they are used?
fn spares_looks(network: &Network, change: &Change, bytes: &[bool]) -> bool
    ensures { IsTrue result → SparesLooks network.now change.now bytes.now }
{
    match change {
        Change::WithoutPort { switch, entry, .. } => {
            spares_entry_at(network, *switch, *entry, bytes)
        }
        Change::WithoutEntry { switch, entry } => {
            spares_entry_at(network, *switch, *entry, bytes)
        }
        _ => true,
    }
}

/// Does the change take none of these flows away?
fn spares_flows(network: &Network, change: &Change, numbers: &[u16]) -> bool
    ensures { IsTrue result → SparesFlows network.now change.now numbers.now }
{
    for number in numbers {
        if *number >= network.declared_flows() {
            return false;
        }
        if loses_flow(change, *number, network.flow(*number)) {
            return false;
        }
    }
    true
}

/// Does the change take none of their replies away?
fn spares_replies(network: &Network, change: &Change, numbers: &[u16]) -> bool
    ensures { IsTrue result → SparesReplies network.now change.now numbers.now }
{
    for number in numbers {
        if *number >= network.declared_flows() {
            return false;
        }
        if loses_reply(change, *number, network.flow(*number)) {
            return false;
        }
    }
    true
}

/// Does the change take none of these flows away, and none of their replies?
fn spares_answered(network: &Network, change: &Change, numbers: &[u16]) -> bool
    ensures { IsTrue result → SparesFlows network.now change.now numbers.now × SparesReplies network.now change.now numbers.now }
{
    if !spares_flows(network, change, numbers) {
        return false;
    }
    spares_replies(network, change, numbers)
}

/// Does the change touch nothing that the cycle uses?
fn is_spared(network: &Network, change: &Change, uses: &Uses) -> bool
    ensures { IsTrue result → IsSpared network.now change.now uses.now }
{
    if !spares_flows(network, change, &uses.flows) {
        return false;
    }
    if !spares_answered(network, change, &uses.answered) {
        return false;
    }
    spares_looks(network, change, &uses.bytes)
}

/// Does the change touch nothing that one of the cycles uses? Those that were found last are looked at first.
pub(crate) fn spares_one(network: &Network, change: &Change, cycles: &[Uses]) -> bool
    ensures { IsTrue result → SparesOne network.now change.now cycles.now }
{
    for behind in 0..cycles.len() {
        let number = cycles.len() - 1 - behind;
        if is_spared(network, change, &cycles[number]) {
            return true;
        }
    }
    false
}

/// Is none of these flows one of commands that the node answers?
fn spares_commands(network: &Network, node: u16, numbers: &[u16]) -> bool
    ensures { IsTrue result → SparesCommands network.now node numbers.now }
{
    for number in numbers {
        if *number >= network.declared_flows() {
            return false;
        }
        if network.flow(*number).is_answered_at(node) {
            return false;
        }
    }
    true
}

/// Does a split of the node touch nothing that the cycle uses?
fn is_split_spared(network: &Network, node: u16, uses: &Uses) -> bool
    ensures { IsTrue result → IsSplitSpared network.now node uses.now }
{
    if uses.rests_on_limits {
        return false;
    }
    if !spares_commands(network, node, &uses.flows) {
        return false;
    }
    spares_commands(network, node, &uses.answered)
}

/// Does a split of the node touch nothing that one of the cycles uses? Those that were found last are looked at first.
pub(crate) fn split_spares_one(network: &Network, node: u16, cycles: &[Uses]) -> bool
    ensures { IsTrue result → SplitSparesOne network.now node cycles.now }
{
    for behind in 0..cycles.len() {
        let number = cycles.len() - 1 - behind;
        if is_split_spared(network, node, &cycles[number]) {
            return true;
        }
    }
    false
}

/// The numbers of the cycles of which the change touches nothing.
pub(crate) fn spared_by(
    alloc: Global,
    network: &Network,
    change: &Change,
    cycles: &[Uses],
) -> Result<Vec<usize>, AllocError> {
    let mut spared = Vec::new(alloc);
    for (number, uses) in cycles.iter().enumerate() {
        if is_spared(network, change, uses) {
            spared.push(number)?;
        }
    }
    Ok(spared)
}

/// Do both changes touch nothing that the cycle of that number uses?
fn both_spare(
    network: &Network,
    first: &Change,
    second: &Change,
    cycles: &[Uses],
    number: usize,
) -> bool
    ensures { IsTrue result → BothSpareOne network.now first.now second.now cycles.now }
{
    if number >= cycles.len() {
        return false;
    }
    let uses = &cycles[number];
    is_spared(network, second, uses) && is_spared(network, first, uses)
}

/// Do both changes touch nothing that one of the cycles uses? Those of these numbers are looked at, and all from the known ones on.
pub(crate) fn both_spare_one(
    network: &Network,
    first: &Change,
    second: &Change,
    cycles: &[Uses],
    spared: &[usize],
    known: usize,
) -> bool
    ensures { IsTrue result → BothSpareOne network.now first.now second.now cycles.now }
{
    for number in spared {
        if both_spare(network, first, second, cycles, *number) {
            return true;
        }
    }
    for number in known..cycles.len() {
        if both_spare(network, first, second, cycles, number) {
            return true;
        }
    }
    false
}
