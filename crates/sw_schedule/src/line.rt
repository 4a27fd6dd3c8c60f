//! What a line of a schedule says.
ghost use Rattle.std.specs.Prelude.{◌≡◌, ◌==◌, ◌∷◌, [], IfOk, option_and_then, option_map};
ghost use Rattle.std.specs.List.{slice_split};
ghost use Rattle.sw_machine.specs.StepValues.{machine_move};
ghost use Rattle.sw_schedule.specs.Lines.{at_channel, begin_of, channel_of, grant_of, is_skipped, node_of, repeated_of, step_of, words_of};

use crate::cargo::cargo_of;
use crate::names::{MAX_COUNT, channel_of, flow_of, is_word, node_of};
use crate::schedule_entry::{BeginStep, Packed, ScheduleEntry};
use std::alloc::{AllocError, Global};
use sw_char::End;
use sw_config::Network;
use sw_machine::Move;
use sw_text::{cut, number};

/// A step at the channel of that number.
fn at_channel(network: &Network, verb: &[u8], place: &[u8]) -> Option<Move>
    ensures { option_map machine_move result ≡ option_and_then (at_channel verb.now) (channel_of network.now place.now) }
{
    let Some(channel) = channel_of(network, place) else {
        return None;
    };
    if is_word(verb, b"fct") {
        Some(Move::Fct(channel))
    } else if is_word(verb, b"fctin") {
        Some(Move::FctIn(channel))
    } else if is_word(verb, b"arrive") {
        Some(Move::Arrive(channel))
    } else if is_word(verb, b"drop") {
        Some(Move::Drop(channel))
    } else if is_word(verb, b"forward") {
        Some(Move::Forward(channel))
    } else if is_word(verb, b"spill") {
        Some(Move::Spill(channel))
    } else {
        None
    }
}

/// The step of two words.
fn of_place(network: &Network, verb: &[u8], place: &[u8]) -> Option<Move>
    ensures { option_map machine_move result ≡ step_of network.now (verb.now ∷ place.now ∷ []) }
{
    if let Some(step) = at_channel(network, verb, place) {
        return Some(step);
    }
    let Some(node) = node_of(network, place) else {
        return None;
    };
    if is_word(verb, b"emit") {
        Some(Move::Emit(node))
    } else if is_word(verb, b"accept") {
        Some(Move::Accept(node))
    } else if is_word(verb, b"reply") {
        Some(Move::Reply(node))
    } else {
        None
    }
}

/// The step of three words.
fn grant_of(network: &Network, verb: &[u8], output: &[u8], input: &[u8]) -> Option<Move>
    ensures { option_map machine_move result ≡ grant_of network.now verb.now output.now input.now }
{
    if !is_word(verb, b"grant") {
        return None;
    }
    let Some(output) = channel_of(network, output) else {
        return None;
    };
    match channel_of(network, input) {
        Some(input) => Some(Move::Grant(output, input)),
        None => None,
    }
}

/// The entry of the step of four words, if they write one.
fn begin_entry(
    alloc: Global,
    network: &Network,
    count: u32,
    verb: &[u8],
    flow: &[u8],
    end: &[u8],
    cargo: &[u8],
) -> Result<Option<ScheduleEntry>, AllocError>
    ensures { IfOk result (λ o. o ≡ option_map (λ s. record { count = count; step = s }) (begin_of network.now verb.now flow.now end.now cargo.now)) }
{
    if !is_word(verb, b"begin") {
        return Ok(None);
    }
    let Some(flow) = flow_of(network, flow) else {
        return Ok(None);
    };
    let end = if is_word(end, b"EOP") {
        End::Eop
    } else if is_word(end, b"EEP") {
        End::Eep
    } else {
        return Ok(None);
    };
    let Some(cargo) = cargo_of(alloc, cargo)? else {
        return Ok(None);
    };
    let step = Box::new(alloc, BeginStep { flow, cargo, end })?;
    Ok(Some(ScheduleEntry {
        packed: Packed::WithCargo(count, step),
    }))
}

/// The entry of the step that the words of a text write, if they write one, which is made so many times.
fn counted_entry(
    alloc: Global,
    network: &Network,
    count: u32,
    text: &[u8],
) -> Result<Option<ScheduleEntry>, AllocError>
    ensures { IfOk result (λ o. o ≡ option_map (λ s. record { count = count; step = s }) (step_of network.now (words_of text.now))) }
{
    let Some((verb, rest)) = cut(text, b' ') else {
        return Ok(None);
    };
    let Some((first, rest)) = cut(rest, b' ') else {
        return Ok(ScheduleEntry::plain(count, of_place(network, verb, rest)));
    };
    let Some((second, rest)) = cut(rest, b' ') else {
        return Ok(ScheduleEntry::plain(count, grant_of(network, verb, first, rest)));
    };
    match cut(rest, b' ') {
        None => begin_entry(alloc, network, count, verb, first, second, rest),
        Some(_) => Ok(None),
    }
}

/// Whether a line says nothing: an empty one, or one that begins with `#`.
pub(crate) fn is_skipped(line: &[u8]) -> bool
    ensures { result ≡ is_skipped line.now }
{
    match line {
        [] => true,
        [first, ..] => *first == b'#',
    }
}

/// The step of a line, and how many times it is made.
pub(crate) fn entry_of(
    alloc: Global,
    network: &Network,
    line: &[u8],
) -> Result<Option<ScheduleEntry>, AllocError>
    ensures { IfOk result (λ o. o ≡ repeated_of network.now (words_of line.now)) }
{
    let Some((word, rest)) = cut(line, b' ') else {
        return counted_entry(alloc, network, 1, line);
    };
    match number(word, MAX_COUNT) {
        None | Some(0) => counted_entry(alloc, network, 1, line),
        Some(count) => counted_entry(alloc, network, count, rest),
    }
}
