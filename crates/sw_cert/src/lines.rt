//! What the lines of a certificate's text say.
ghost use Rattle.std.specs.Prelude.{◌≡◌, option_copied, ◌<◌, ◌≤◌, ◌^◌, IfSome};
ghost use Rattle.sw_cert.specs.Grammar.{after_word, field, is_line, moved, place_of, places, said_by, stands_before};

use sw_flow::Place;
use sw_text::{cut, number};
use sw_topo::Chan;
use sw_topo::limits::{MAX_ADDRESS, MAX_CHANNELS, MAX_NUMBER, MAX_PLACES, MAX_WAYS};

/// What the next line has to be.
#[derive(Clone, Copy)]
pub enum Expected {
    /// The first line.
    Title,
    /// The count of channels.
    Channels,
    /// This many numbers, then the count of flows.
    Numbers(u32),
    /// This many flows, then the end.
    Flows(u32),
    /// A place, this many after it, and then this many flows.
    Places(u32, u32),
    /// No line: the text has ended.
    Nothing,
}

/// What a line says.
#[derive(Clone, Copy)]
pub enum Said {
    /// The title.
    Begun,
    /// The count of channels: as many numbers follow.
    ChannelCount(u32),
    /// The certificate's number for the next channel, 0 to 65535.
    Number(u16),
    /// The count of flows, reply flows too.
    FlowCount(u32),
    /// The count of the places of the next flow, which follow.
    PlaceCount(u32),
    /// The next place of the flow.
    Listed(Place),
    /// The last line.
    Ended,
}

/// What follows a word.
fn after_word<'a>(word: &[u8], line: &'a [u8]) -> Option<&'a [u8]>
    ensures { option_copied result ≡ after_word word.now line.entry.now }
{
    line.strip_prefix(word)
}

/// The number after a word.
fn field(word: &[u8], limit: u32, line: &[u8]) -> Option<u32>
    requires { limit < 2 ^ 24 }
    ensures exact { result ≡ field word.now limit line.now }
    ensures within { IfSome result (λ n. n ≤ limit) }
{
    match after_word(word, line) {
        Some(digits) => number(digits, limit),
        None => None,
    }
}

/// Whether the first place stands before the second.
pub(crate) fn stands_before(last: Option<Place>, place: &Place) -> bool
    ensures { result ≡ stands_before last place.now }
{
    match last {
        None => true,
        Some(p) => {
            let before = (p.channel.number(), p.deleted);
            before < (place.channel.number(), place.deleted)
        }
    }
}

/// What is expected after a block's count, or a place with this many to come.
fn places(left: u32, flows: u32) -> Expected
    ensures { result ≡ places left flows }
{
    if left == 0 {
        Expected::Flows(flows)
    } else {
        Expected::Places(left - 1, flows)
    }
}

/// Whether the line is this word.
fn is_line(word: &[u8], line: &[u8]) -> bool
    ensures { result ≡ is_line word.now line.now }
{
    line.starts_with(word) && line.len() == word.len()
}

/// The place of two numbers with a space between them.
fn place_of(bytes: &[u8]) -> Option<Place>
    ensures { result ≡ place_of bytes.now }
{
    let Some((channel, deleted)) = cut(bytes, b' ') else {
        return None;
    };
    let Some(channel) = number(channel, MAX_NUMBER) else {
        return None;
    };
    let Some(deleted) = number(deleted, MAX_ADDRESS as u32) else {
        return None;
    };
    Some(Place {
        channel: Chan::new(channel as u16),
        deleted: deleted as u8,
    })
}

/// What a line says where this is expected, after the last place of its block.
pub(crate) fn said_by(expected: Expected, last: Option<Place>, line: &[u8]) -> Option<Said>
    ensures { result ≡ said_by expected last line.now }
{
    match expected {
        Expected::Title => is_line(b"swcert 1", line).then_some(Said::Begun),
        Expected::Channels => match field(b"channels ", MAX_CHANNELS, line) {
            Some(count) => Some(Said::ChannelCount(count)),
            None => None,
        },
        Expected::Numbers(0) => match field(b"flows ", MAX_WAYS, line) {
            Some(count) => Some(Said::FlowCount(count)),
            None => None,
        },
        Expected::Numbers(_) => match field(b"number ", MAX_NUMBER, line) {
            Some(number) => Some(Said::Number(number as u16)),
            None => None,
        },
        Expected::Flows(0) => is_line(b"end", line).then_some(Said::Ended),
        Expected::Flows(_) => match field(b"flow ", MAX_PLACES, line) {
            Some(count) => Some(Said::PlaceCount(count)),
            None => None,
        },
        Expected::Places(..) => match after_word(b"place ", line) {
            Some(numbers) => match place_of(numbers) {
                Some(place) => stands_before(last, &place).then_some(Said::Listed(place)),
                None => None,
            },
            None => None,
        },
        Expected::Nothing => None,
    }
}

/// What is expected after a line.
pub(crate) fn next_expected(expected: Expected, said: &Said) -> Expected
    ensures { result ≡ moved expected said.now }
{
    match (expected, said) {
        (_, Said::Begun) => Expected::Channels,
        (_, Said::ChannelCount(n)) => Expected::Numbers(*n),
        (Expected::Numbers(left), Said::Number(_)) => Expected::Numbers(left.saturating_sub(1)),
        (_, Said::FlowCount(m)) => Expected::Flows(*m),
        (Expected::Flows(left), Said::PlaceCount(p)) => places(*p, left.saturating_sub(1)),
        (Expected::Places(p, left), Said::Listed(_)) => places(p, left),
        (_, Said::Ended) => Expected::Nothing,
        _ => expected,
    }
}
