//! What a network is made of, by the public calls of the crates below: packets, relations, routing, arbiters, RMAP, reads and writes that fail,
//! certificates, the ends of channels, wires, and the cells of nodes and switches. Cycles stand on a network, and are cases for that.

mod arbiters;
mod certificates;
mod characters;
pub(crate) mod cycles;
mod ends;
mod memories;
mod nodes;
mod orders;
mod routes;
mod sets;
mod streams;
mod switches;
mod wiring;

use crate::parts::arbiters::{FIXED_AND_ROUND_ROBIN, LEAST_RECENT};
use crate::parts::memories::{ANSWERED, REFUSED};
use std::alloc::Global;
use std::io;
use sw_graph::{OneByOne, RoundWorkers};

/// What is tried.
#[derive(Clone, Copy)]
enum PartCase {
    InTurn,
    LongestAgo,
    Certificates,
    Characters,
    Ends,
    Codes,
    Written,
    Refused,
    Commands,
    WaysBack,
    Nodes,
    Relations,
    SharedMembers,
    MembersOneByOne,
    Intervals,
    Addresses,
    Reads,
    FailedReads,
    FailedWrites,
    Outputs,
    Wires,
}

/// What is printed before, and what is tried.
const PARTS: &[(&str, PartCase)] = &[
    (
        "fixed_picks_the_lowest_and_round_robin_in_turn",
        PartCase::InTurn,
    ),
    ("least_recent_picks_the_longest_ago", PartCase::LongestAgo),
    (
        "a_certificate_is_written_and_lists_no_place_twice",
        PartCase::Certificates,
    ),
    ("one_packet_and_a_rest", PartCase::Characters),
    ("an_end_asks_where_it_has_room", PartCase::Ends),
    ("codes", PartCase::Codes),
    ("targets_write", PartCase::Written),
    ("targets_refuse", PartCase::Refused),
    ("commands_as_bytes", PartCase::Commands),
    ("ways_back", PartCase::WaysBack),
    ("nodes_send_and_take_packets", PartCase::Nodes),
    ("relations_have_levels_or_a_cycle", PartCase::Relations),
    ("many_members_are_shared", PartCase::SharedMembers),
    (
        "many_members_are_taken_one_by_one",
        PartCase::MembersOneByOne,
    ),
    ("tables_and_intervals_answer_alike", PartCase::Intervals),
    (
        "addresses_have_one_entry_and_outputs_a_link",
        PartCase::Addresses,
    ),
    ("a_text_up_to_its_limit_is_read", PartCase::Reads),
    (
        "a_read_that_fails_is_not_tried_again",
        PartCase::FailedReads,
    ),
    (
        "a_write_that_fails_leaves_a_beginning",
        PartCase::FailedWrites,
    ),
    (
        "the_output_stays_with_a_packet_until_its_end",
        PartCase::Outputs,
    ),
    ("characters_arrive_in_order", PartCase::Wires),
];

/// Whether all came as it is wanted.
fn is_as_wanted<W: RoundWorkers>(workers: &W, alloc: Global, part: PartCase) -> bool {
    match part {
        PartCase::InTurn => arbiters::pick(FIXED_AND_ROUND_ROBIN),
        PartCase::LongestAgo => arbiters::pick(LEAST_RECENT),
        PartCase::Certificates => certificates::are_written(alloc),
        PartCase::Characters => characters::are_cut(alloc),
        PartCase::Ends => ends::ask(alloc),
        PartCase::Codes => memories::have_codes(),
        PartCase::Written => memories::answer(alloc, ANSWERED),
        PartCase::Refused => memories::answer(alloc, REFUSED),
        PartCase::Commands => memories::are_bytes(alloc),
        PartCase::WaysBack => memories::go_back(alloc),
        PartCase::Nodes => nodes::carry_packets(alloc),
        PartCase::Relations => orders::are_found(alloc),
        PartCase::SharedMembers => orders::are_many(workers, alloc),
        PartCase::MembersOneByOne => orders::are_many(&OneByOne, alloc),
        PartCase::Intervals => routes::agree(alloc),
        PartCase::Addresses => routes::lead(alloc),
        PartCase::Reads => streams::are_read(alloc),
        PartCase::FailedReads => streams::fail_once(alloc),
        PartCase::FailedWrites => streams::are_begun(alloc),
        PartCase::Outputs => switches::stay(alloc),
        PartCase::Wires => wiring::keeps_order(alloc),
    }
}

/// Prints of each part whether all came as it is wanted. Their heading is that of the cycles.
pub(crate) fn show_parts<W: RoundWorkers>(rt: &HostRuntime, workers: &W) -> io::Result<()> {
    let mut shown = Ok(());
    for &(name, part) in PARTS {
        let is_so = is_as_wanted(workers, rt.alloc(), part);
        shown = shown.and(println!(rt; "{name} {is_so}"));
    }
    shown
}
