//! The text of a certificate.
ghost use Rattle.std.specs.Prelude.{◌≡◌, ◌++◌, ◌∷◌, [], length, map, OnOk, IfOk, string_bytes, codes};
ghost use Rattle.std.specs.List.{flat_map};
ghost use Rattle.std.specs.Fmt.{decimal};
ghost use Rattle.sw_cert.specs.Grammar.{with_lf, place_line, spelling};
ghost use Rattle.sw_cert.specs.PartTexts.{head_text, lists_text};
ghost use Rattle.sw_cert.specs.Pieces.{AreHeads, ArePieces, AreTails, piece};
ghost use Rattle.sw_cert.specs.Reading.{items_of};

use crate::write_workers::WriteWorkers;
use std::alloc::{AllocError, Global};
use std::fmt::Write;
use sw_flow::Place;
use sw_text::TextParts;
use sw_topo::limits::MAX_ADDRESS;

/// The line that ends a certificate.
const END_LINE: &str = "end\n";

/// The numbers below `count`, each between the two words.
fn pieces(alloc: Global, before: &str, after: &str, count: usize) -> Result<Vec<String>, AllocError>
    ensures { IfOk result (λ v. ArePieces before.now after.now v.items) }
{
    let mut pieces = Vec::new(alloc);
    for number in 0..count {
        pieces.push(format!(in alloc; "{before}{number}{after}")?)?;
    }
    Ok(pieces)
}

/// Adds the number between the two words: the piece of that number where there is one.
fn add_piece(
    pieces: &[String],
    before: &str,
    number: usize,
    after: &str,
    text: &mut String,
) -> Result<(), AllocError>
    requires { ArePieces before.now after.now pieces.now }
    ensures { OnOk result (string_bytes text.new ≡ string_bytes text.old ++ piece before.now after.now number) }
{
    match pieces.get(number) {
        Some(piece) => text.push_str(piece.as_str()),
        None => write!(text, "{before}{number}{after}"),
    }
}

/// Adds a line of a word and a number.
fn add_field(word: &str, value: usize, text: &mut String) -> Result<(), AllocError>
    ensures { OnOk result (string_bytes text.new ≡ string_bytes text.old ++ with_lf (word.now ++ decimal value)) }
{
    write!(text, "{word}{value}\n")
}

/// Adds the list of a flow, the line of each place of a piece for its channel and one for its deleted bytes: a certificate has them in
/// thousands of lines.
fn add_block(
    heads: &[String],
    tails: &[String],
    places: &[Place],
    text: &mut String,
) -> Result<(), AllocError>
    requires heads { AreHeads heads.now }
    requires tails { AreTails tails.now }
    ensures { OnOk result (string_bytes text.new ≡ string_bytes text.old ++ (with_lf (codes "flow " ++ decimal (length places.now)) ++ flat_map (λ p. with_lf (place_line p)) places.now)) }
{
    add_field("flow ", places.len(), text)?;
    for place in places {
        add_piece(
            heads,
            "place ",
            usize::from(place.channel.number()),
            " ",
            text,
        )?;
        add_piece(tails, "", usize::from(place.deleted), "\n", text)?;
    }
    Ok(())
}

/// Adds the lists of flows.
fn add_lists(
    heads: &[String],
    tails: &[String],
    flows: &[Vec<Place>],
    text: &mut String,
) -> Result<(), AllocError>
    requires heads { AreHeads heads.now }
    requires tails { AreTails tails.now }
    ensures { OnOk result (string_bytes text.new ≡ string_bytes text.old ++ lists_text (map items_of flows.now)) }
{
    for places in flows {
        add_block(heads, tails, places, text)?;
    }
    Ok(())
}

/// The text of the lists of flows.
pub(crate) fn lists_text(
    alloc: Global,
    heads: &[String],
    tails: &[String],
    flows: &[Vec<Place>],
) -> Result<Vec<u8>, AllocError>
    requires heads { AreHeads heads.now }
    requires tails { AreTails tails.now }
    ensures { IfOk result (λ v. v.items ≡ lists_text (map items_of flows.now)) }
{
    let mut text = String::new(alloc);
    add_lists(heads, tails, flows, &mut text)?;
    Ok(text.into_bytes())
}

/// The text before the lists of so many flows.
fn head_text(alloc: Global, numbers: &[u16], flows: usize) -> Result<String, AllocError>
    ensures { IfOk result (λ text. string_bytes text ≡ head_text numbers.now flows) }
{
    let mut text = format!(in alloc; "swcert 1\nchannels {}\n", numbers.len())?;
    for number in numbers {
        add_field("number ", usize::from(*number), &mut text)?;
    }
    add_field("flows ", flows, &mut text)?;
    Ok(text)
}

/// What the lines of places begin with, by channel, for the channels below `channels`.
pub(crate) fn heads_of(alloc: Global, channels: usize) -> Result<Vec<String>, AllocError>
    ensures { IfOk result (λ v. AreHeads v.items) }
{
    pieces(alloc, "place ", " ", channels)
}

/// What the lines of places end with, by deleted bytes.
pub(crate) fn tails_of(alloc: Global) -> Result<Vec<String>, AllocError>
    ensures { IfOk result (λ v. AreTails v.items) }
{
    pieces(alloc, "", "\n", usize::from(MAX_ADDRESS) + 1)
}

/// The text of a certificate with these numbers and places.
pub(crate) fn spell(
    alloc: Global,
    numbers: &[u16],
    flows: &[Vec<Place>],
) -> Result<Vec<u8>, AllocError>
    ensures { IfOk result (λ v. v.items ≡ spelling numbers.now (map items_of flows.now)) }
{
    let mut text = head_text(alloc, numbers, flows.len())?;
    let heads = heads_of(alloc, numbers.len())?;
    let tails = tails_of(alloc)?;
    add_lists(&heads, &tails, flows, &mut text)?;
    text.push_str(END_LINE)?;
    Ok(text.into_bytes())
}

/// The same text in parts. The workers make those of the lists.
pub(crate) fn spell_by<W: WriteWorkers>(
    workers: &W,
    alloc: Global,
    numbers: &[u16],
    flows: &[Vec<Place>],
) -> Result<TextParts, AllocError>
    ensures { IfOk result (λ text. text ≡ spelling numbers.now (map items_of flows.now)) }
{
    let first = head_text(alloc, numbers, flows.len())?;
    let mut more = workers.texts_of_lists(alloc, numbers.len(), flows)?;
    let end = String::from_str(alloc, END_LINE)?;
    more.push(end.into_bytes())?;
    Ok(TextParts::new(first.into_bytes(), more))
}
