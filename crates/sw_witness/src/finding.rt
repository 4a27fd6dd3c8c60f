//! The search.
ghost use Rattle.std.specs.Prelude.{IfOk, IfSome, string_bytes};
ghost use Rattle.sw_witness.specs.Witnesses.{LocksUp};

use crate::confirm::locks_up;
use crate::random::Random;
use crate::trial::{Along, one_try};
use crate::unlimited::has_no_limits;
use std::alloc::{AllocError, Global};
use sw_config::Network;
use sw_search::Tangle;

/// How many channels a short cycle has, at most.
const SHORT: usize = 16;

/// Before the try of that number no packets are chosen for all of a short cycle.
const LATER: u32 = 40;

/// Added to the number of a try for the random numbers of a further one in its turn; no try has so great a number.
const FURTHER: u32 = 2_147_483_648;

/// What the try of that number makes wait: where commands are limited tries take other circles too, since the shortest cycle may want more
/// commands than an initiator leaves unanswered.
fn wait_of_try(turn: u32, is_limited: bool) -> Along {
    if !is_limited {
        return Along::Cycle;
    }
    match turn % 8 {
        0 | 4 => Along::Cycle,
        7 => Along::NoCircle,
        _ => Along::AnyCircle,
    }
}

/// One turn of the search in the tangle: a schedule after which the network is locked up, if it comes to that. Where the cycle is long, packets
/// are first chosen for all of it; where it is short, that is done last, in every fourth turn of the later ones.
fn one_turn(
    alloc: Global,
    network: &Network,
    tangle: &Tangle,
    random: &mut Random,
    further: &mut Random,
    turn: u32,
) -> Result<Option<String>, AllocError> {
    let is_long = tangle.cycle.channels.len() > SHORT;
    if is_long {
        let found = one_try(alloc, network, tangle, further, Along::WholeCycle)?;
        if found.is_some() {
            return Ok(found);
        }
    }
    let along = wait_of_try(turn, !has_no_limits(network));
    let found = one_try(alloc, network, tangle, random, along)?;
    if found.is_some() || is_long || turn < LATER || turn % 4 != 3 {
        return Ok(found);
    }
    one_try(alloc, network, tangle, further, Along::WholeCycle)
}

/// A schedule that leads the network into a lock-up, by at most so many tries. None says nothing of the network.
///
/// `tangles` tells where to look, as `sw_search::tangles` gives them. The same seed gives the same tries. Whatever the search does,
/// its schedule is replayed before it is given.
///
/// # Errors
///
/// There is no memory for a try or its replay.
pub fn find(
    alloc: Global,
    network: &Network,
    tangles: &[Tangle],
    tries: u32,
    seed: u32,
) -> Result<Option<String>, AllocError>
    ensures { IfOk result (λ found. IfSome found (λ text. LocksUp network.now (string_bytes text))) }
{
    for turn in 0..tries {
        let mut random = Random::new(seed, turn);
        let mut further = Random::new(seed, turn.wrapping_add(FURTHER));
        let Some(tangle) = tangles.get(random.below(tangles.len())) else {
            return Ok(None);
        };
        let Some(text) = one_turn(alloc, network, tangle, &mut random, &mut further, turn)? else {
            continue;
        };
        if locks_up(alloc, network, text.as_bytes())? {
            return Ok(Some(text));
        }
    }
    Ok(None)
}
