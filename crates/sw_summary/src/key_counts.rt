//! What came out of a network and is not counted yet.
ghost use Rattle.std.specs.Prelude.{◌≡◌, ◌≤◌, ◌-◌, IfOk, if◌then◌else◌, length, map, nat_lt, replicate};
ghost use Rattle.std.specs.List.Sorted.{IsBinarySearchResult, IsSearchInRange};
ghost use Rattle.sw_summary.specs.Counts.{all_items, all_replies, items_at};
ghost use Rattle.sw_summary.specs.KeyCounts.{IsRising, found, item_order, key_counts, left, taken, taken_all};

use crate::came_out::{PacketKey, packet_keys, reply_keys};
use std::alloc::{AllocError, Global};
use std::cmp::Ordering;
use std::marker::Model;
use sw_char::Packet;
use sw_output::end_rank;

/// A key, and how often it is there.
#[derive(Drop)]
pub(crate) struct KeyCount<'a> {
    key: PacketKey<'a>,
    count: u64,
}

impl<'a> Model for KeyCount<'a> {
    ghost use Rattle.sw_summary.specs.KeyCounts.{KeyCountView};

    ghost Value = { KeyCountView };

    ghost view = { λ t. record { item = t.key; count = t.count } };
}

/// Where the key stands, or where it has to be put.
fn index_of(key_counts: &[KeyCount<'_>], key: &PacketKey<'_>) -> Result<usize, usize>
    ensures bound { IsSearchInRange result (length key_counts.now) }
    ensures position { IsBinarySearchResult (λ t. item_order t.item key.now) key_counts.now result }
{
    key_counts.binary_search_by(
        |key_count: &KeyCount<'_>| -> Ordering
            ensures { result ≡ item_order key_count.now.item key.entry.now }
        {
            let ends = end_rank(key_count.key.end).cmp(&end_rank(key.end));
            let bytes = key_count.key.bytes.cmp(key.bytes);
            key_count.key.node.cmp(&key.node).then(bytes.then(ends))
        },
    )
}

/// One fewer of the key, where there is one: how many fewer.
fn take(key_counts: &mut [KeyCount<'_>], key: &PacketKey<'_>) -> usize
    requires { IsRising key_counts.old }
    ensures lowered { result ≡ (if nat_lt 0 (left key.now key_counts.old) then 1 else 0) }
    ensures fewer { key_counts.new ≡ taken key.now key_counts.old }
    ensures rising { IsRising key_counts.new }
    ensures few { result ≤ 1 }
{
    match index_of(key_counts, key) {
        Ok(i) => {
            let key_count = &mut key_counts[i];
            let before = key_count.count;
            key_count.count = before.saturating_sub(1);
            before.min(1) as usize
        }
        Err(_) => 0,
    }
}

/// The different keys in rising order, each with how often it is there.
fn key_counts<'a>(alloc: Global, keys: &[PacketKey<'a>]) -> Result<Vec<KeyCount<'a>>, AllocError>
    ensures { IfOk result (λ all. all.items ≡ key_counts keys.now) }
{
    let mut all = Vec::new(alloc);
    for key in keys {
        match index_of(&all, key) {
            Ok(i) => all[i].count += 1,
            Err(i) => {
                let key = PacketKey {
                    node: key.node,
                    bytes: key.bytes,
                    end: key.end,
                };
                all.insert(i, KeyCount { key, count: 1 })?;
            }
        }
    }
    Ok(all)
}

/// The different packets that came out, each with how often it did.
pub(crate) fn packet_counts<'a>(
    alloc: Global,
    out: &'a [Vec<Packet>],
) -> Result<Vec<KeyCount<'a>>, AllocError>
    requires { length out.now ≤ 1024 }
    ensures { IfOk result (λ all. all.items ≡ key_counts (all_items (map (λ packets. packets.items) out.now))) }
{
    let keys = packet_keys(alloc, out)?;
    key_counts(alloc, &keys)
}

/// The different replies that came out, by their first byte.
pub(crate) fn reply_counts<'a>(
    alloc: Global,
    out: &'a [Vec<Packet>],
) -> Result<Vec<KeyCount<'a>>, AllocError>
    requires { length out.now ≤ 1024 }
    ensures { IfOk result (λ all. all.items ≡ key_counts (all_replies (map (λ packets. packets.items) out.now))) }
{
    let keys = reply_keys(alloc, out)?;
    key_counts(alloc, &keys)
}

/// How many of the packets at the node find one that is not counted yet: each takes it.
pub(crate) fn found_packets(key_counts: &mut [KeyCount<'_>], node: u16, packets: &[Packet]) -> usize
    requires { IsRising key_counts.old }
    ensures count { result ≡ found key_counts.old (items_at node packets.now) }
    ensures rest { key_counts.new ≡ taken_all key_counts.old (items_at node packets.now) }
{
    let mut count = 0;
    for packet in packets {
        let key = PacketKey {
            node,
            bytes: packet.bytes.as_slice(),
            end: packet.end,
        };
        count += take(key_counts, &key);
    }
    count
}

/// The same of so many times one key.
pub(crate) fn found_times(
    key_counts: &mut [KeyCount<'_>],
    key: &PacketKey<'_>,
    times: usize,
) -> usize
    requires { IsRising key_counts.old }
    ensures count { result ≡ found key_counts.old (replicate times key.now) }
    ensures rest { key_counts.new ≡ taken_all key_counts.old (replicate times key.now) }
{
    let mut count = 0;
    for _turn in 0..times {
        count += take(key_counts, key);
    }
    count
}
