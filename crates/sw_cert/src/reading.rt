//! The steps in which a certificate's text is read.
ghost use Rattle.std.specs.Prelude.{◌≡◌, ◌==◌, ◌+◌, ◌-◌, ◌≤◌, ◌^◌, ◌∷◌, [], All, IfErr, IfNone, IfOk, IfSome, Err, drop, length, true};
ghost use Rattle.std.specs.List.{slice_split};
ghost use Rattle.sw_cert.specs.Parts.{IsRead, IsReadPart, read_rest};
ghost use Rattle.sw_cert.specs.Reading.{state_of};
ghost use Rattle.sw_cert.specs.Sound.{IsSound};
ghost use Rattle.sw_cert.specs.Text.{Gives};

use crate::certificate::CertificateFault;
use crate::draft::Draft;
use crate::lines::Expected;
use crate::parts::Lists;
use std::alloc::{AllocError, Global};
use sw_text::cut;

/// Reads the lines of a text, of which the first has that number, up to the lists of flows or, if these are read too, up to what stands
/// after its last line end: what was not read, and the number of the line with which that begins.
pub(crate) fn read_lines<'a>(
    alloc: Global,
    draft: &mut Draft,
    text: &'a [u8],
    first: usize,
    lists_too: bool,
) -> Result<(&'a [u8], usize), CertificateFault>
    requires { first + length text.now ≤ 2 ^ 63 }
    ensures read { IfOk result (λ r. IsRead first (state_of draft.old) text.entry.now r.1 (state_of draft.new) r.0.now) }
    ensures all { lists_too ≡ true → IfOk result (λ r. slice_split (λ b. b == 10) r.0.now ≡ r.0.now ∷ []) }
    ensures wrong { IfErr result (λ fault. Gives (read_rest first (state_of draft.old) text.entry.now) (Err fault)) }
{
    let mut rest = text;
    let mut number = first;
    while let Some((line, more)) = cut(rest, b'\n') {
        if !lists_too && matches!(draft.expected, Expected::Flows(_)) {
            return Ok((rest, number));
        }
        if !draft.read_line(alloc, line)? {
            return Err(CertificateFault::Fault(number));
        }
        rest = more;
        number += 1;
    }
    Ok((rest, number))
}

/// Takes the lists of a part, if it begins at that byte of the text, and its lists are to come: where it ends, and the number of the
/// line that begins there.
fn take_part(
    draft: &mut Draft,
    text: &[u8],
    at: usize,
    number: usize,
    lists: &mut Lists,
) -> Result<Option<(usize, usize)>, AllocError>
    requires sound { IsSound (state_of draft.old) }
    requires read { IsReadPart text.now lists.old }
    requires within { at ≤ length text.now }
    requires few { number + (length text.now - at) ≤ 2 ^ 63 }
    ensures same { IfOk result (λ r. IfSome r (λ r. read_rest r.1 (state_of draft.new) (drop r.0 text.now) ≡ read_rest number (state_of draft.old) (drop at text.now))) }
    ensures sound { IfOk result (λ r. IfSome r (λ _. IsSound (state_of draft.new))) }
    ensures within { IfOk result (λ r. IfSome r (λ r. r.0 ≤ length text.now)) }
    ensures few { IfOk result (λ r. IfSome r (λ r. r.1 + (length text.now - r.0) ≤ number + (length text.now - at))) }
    ensures none { IfOk result (λ r. IfNone r (state_of draft.new ≡ state_of draft.old)) }
{
    let part = lists.part;
    let lines = lists.lines;
    if part.begin != at || part.end < at || part.end > text.len() {
        return Ok(None);
    }
    let left = match draft.expected {
        Expected::Flows(left) if lists.flows.len() <= left as usize => {
            left - lists.flows.len() as u32
        }
        _ => return Ok(None),
    };
    draft.flows.append(&mut lists.flows)?;
    draft.expected = Expected::Flows(left);
    Ok(Some((part.end, number + lines)))
}

/// Takes the lists of parts of a text, one part after another, as far as they were read: what stands after them, and the number of the
/// line with which it begins.
pub(crate) fn take_lists<'a>(
    draft: &mut Draft,
    text: &'a [u8],
    number: usize,
    found: Vec<Option<Lists>>,
) -> Result<(&'a [u8], usize), AllocError>
    requires sound { IsSound (state_of draft.old) }
    requires read { All (λ lists. IfSome lists (IsReadPart text.now)) found.items }
    requires few { number + length text.now ≤ 2 ^ 63 }
    ensures same { IfOk result (λ r. read_rest r.1 (state_of draft.new) r.0.now ≡ read_rest number (state_of draft.old) text.entry.now) }
    ensures sound { IfOk result (λ _. IsSound (state_of draft.new)) }
    ensures few { IfOk result (λ r. r.1 + length r.0.now ≤ number + length text.entry.now) }
{
    let mut at = 0;
    let mut number = number;
    for lists in found {
        let Some(mut lists) = lists else { break };
        match take_part(draft, text, at, number, &mut lists) {
            Ok(Some((end, line))) => {
                at = end;
                number = line;
            }
            Ok(None) => break,
            Err(error) => return Err(error),
        }
    }
    Ok((&text[at..], number))
}
