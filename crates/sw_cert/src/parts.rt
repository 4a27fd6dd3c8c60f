//! Parts of a certificate's text, each with whole lists of flows, that are read by themselves.
ghost use Rattle.std.specs.Prelude.{◌<◌, ◌≤◌, All, IfOk, IfSome, length};
ghost use Rattle.std.specs.Thread.{IsSync};
ghost use Rattle.sw_cert.specs.Parts.{IsReadPart, IsWhole};
ghost use Rattle.sw_cert.specs.Reading.{state_of};

use crate::certificate::CertificateFault;
use crate::draft::Draft;
use crate::lines::Expected;
use crate::reading::read_lines;
use std::alloc::{AllocError, Global};
use std::thread::Threads;
use sw_flow::Place;
use sw_graph::{OneByOne, SideBySide, Workers, side_by_side};
use sw_topo::limits::MAX_WAYS;

/// Shorter texts are not cut into parts.
const LEAST_TEXT: usize = 262_144;
/// Into how many parts a text is cut.
const PARTS: usize = 64;
/// The length of a certificate's last line.
const LAST_LINE: usize = 4;

/// From this byte of a text up to that one.
#[derive(Clone, Copy)]
pub struct TextPart {
    pub(crate) begin: usize,
    pub(crate) end: usize,
}

/// The lists of flows that a part of a text is, and how many lines they have.
#[derive(Drop)]
pub struct Lists {
    pub(crate) part: TextPart,
    pub(crate) flows: Vec<Vec<Place>>,
    pub(crate) lines: usize,
}

/// Cuts the lists of a text, behind which its last line stands, into parts of about the same length: the parts, and how many there are.
/// Where they are cut decides only how many of them can be read by themselves.
pub(crate) fn parts_of(text: &[u8]) -> ([TextPart; PARTS], usize)
    ensures { result.1 ≤ 64 }
{
    let mut parts = [TextPart { begin: 0, end: 0 }; PARTS];
    if text.len() < LEAST_TEXT {
        return (parts, 0);
    }
    let lists = &text[..text.len() - LAST_LINE];
    let mut begin = 0;
    for number in 0..PARTS {
        // The next list of a flow begins with the next `f`: no line but its first has one.
        let mut end = lists.len() / PARTS * (number + 1);
        while end < lists.len() && lists[end] != b'f' {
            end += 1;
        }
        parts[number] = TextPart { begin, end };
        begin = end;
    }
    (parts, PARTS)
}

/// The lists that a draft has of a part, if the last one is whole and no rest stands after the last line.
fn whole_lists(draft: Draft, part: TextPart, rest: &[u8], lines: usize) -> Option<Lists>
    ensures { IfSome result (λ l. IsWhole (state_of draft) rest.now part lines l) }
{
    if !rest.is_empty() {
        return None;
    }
    match draft.expected {
        Expected::Flows(_) => Some(Lists {
            part,
            flows: draft.flows,
            lines,
        }),
        _ => None,
    }
}

/// The lists of flows that a part of a text is, if it is nothing else.
fn lists_of(alloc: Global, text: &[u8], part: TextPart) -> Result<Option<Lists>, AllocError>
    ensures { IfOk result (λ lists. IfSome lists (IsReadPart text.now)) }
{
    if part.begin > part.end || part.end > text.len() {
        return Ok(None);
    }
    let bytes = &text[part.begin..part.end];
    let mut draft = Draft::new(alloc, Expected::Flows(MAX_WAYS));
    match read_lines(alloc, &mut draft, bytes, 0, true) {
        Ok((rest, lines)) => Ok(whole_lists(draft, part, rest, lines)),
        Err(CertificateFault::Fault(_)) => Ok(None),
        Err(CertificateFault::Memory) => Err(AllocError),
    }
}

/// Who reads the parts of a text.
pub trait ReadWorkers: Workers {
    /// The lists that parts of a text are, of parts that were read and are nothing else.
    ///
    /// # Errors
    ///
    /// There is no memory for the lists.
    fn lists_of_parts(
        &self,
        alloc: Global,
        text: &[u8],
        parts: &[TextPart],
    ) -> Result<Vec<Option<Lists>>, AllocError>
        requires shared { IsSync Self.Shared.row }
        ensures { IfOk result (λ v. All (λ lists. IfSome lists (IsReadPart text.now)) v.items) };
}

impl<R: Threads + Sync> ReadWorkers for SideBySide<'_, R> {
    fn lists_of_parts(
        &self,
        alloc: Global,
        text: &[u8],
        parts: &[TextPart],
    ) -> Result<Vec<Option<Lists>>, AllocError> {
        side_by_side::map_all(
            self.handle(),
            alloc,
            parts.len().min(PARTS) as u16,
            1,
            |number: u16| -> Result<Option<Lists>, AllocError>
                requires inside { number < length parts.now }
                ensures { IfOk result (λ lists. IfSome lists (IsReadPart text.entry.now)) }
            { lists_of(alloc, text, parts[usize::from(number)]) },
        )
    }
}

impl ReadWorkers for OneByOne {
    /// One thread reads a text in one go.
    fn lists_of_parts(
        &self,
        alloc: Global,
        _text: &[u8],
        _parts: &[TextPart],
    ) -> Result<Vec<Option<Lists>>, AllocError> {
        Ok(Vec::new(alloc))
    }
}
