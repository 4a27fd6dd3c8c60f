//! Certificates, and their text.
ghost use Rattle.std.specs.Prelude.{◌≡◌, ◌<◌, ◌≤◌, ◌==◌, ◌∷◌, [], length, Err, IfErr, IfOk};
ghost use Rattle.std.specs.List.{slice_split};
ghost use Rattle.sw_cert.specs.Grammar.{spelling};
ghost use Rattle.sw_cert.specs.Parts.{read_rest};
ghost use Rattle.sw_cert.specs.Reading.{state_of};
ghost use Rattle.sw_cert.specs.Text.{Gives};
ghost use Rattle.sw_cert.specs.Sound.{IsSound};

use crate::draft::Draft;
use crate::lines::Expected;
use crate::parts::{ReadWorkers, parts_of};
use crate::reading::{read_lines, take_lists};
use crate::write::{spell, spell_by};
use crate::write_workers::WriteWorkers;
use std::alloc::{AllocError, Global};
use std::marker::Model;
use sw_flow::Place;
use sw_graph::OneByOne;
use sw_text::{OrMemory, TextParts};

/// The number of the first line of a certificate, counted from 1, that is not as the grammar asks
/// after the lines before it, or want of memory.
pub type CertificateFault = OrMemory<usize>;

/// A number for each channel, and for each flow the places that its packets may reach.
#[derive(Drop)]
pub struct Certificate {
    pub(crate) numbers: Vec<u16>,
    pub(crate) places: Vec<Vec<Place>>,
}

impl Model for Certificate {
    ghost use Rattle.std.specs.Prelude.{map};
    ghost use Rattle.sw_cert.specs.Grammar.{HasText};
    ghost use Rattle.sw_cert.specs.Reading.{items_of};
    ghost use Rattle.sw_cert.specs.Text.{Contents};

    ghost Value = { Contents };

    ghost view = { λ c. record { numbers = c.numbers.items; places = map items_of c.places.items } };

    ghost invariant = { λ c. HasText c.numbers.items (map items_of c.places.items) };
}

/// The certificate that a draft has become, if nothing more is expected and no rest stands after the last line.
fn finish(draft: Draft, rest: &[u8], number: usize) -> Result<Certificate, CertificateFault>
    requires sound { IsSound (state_of draft) }
    requires all { slice_split (λ b. b == 10) rest.now ≡ rest.now ∷ [] }
    ensures { Gives (read_rest number (state_of draft) rest.now) result }
{
    if !matches!(draft.expected, Expected::Nothing) || !rest.is_empty() {
        return Err(CertificateFault::Fault(number));
    }
    Ok(Certificate {
        numbers: draft.numbers,
        places: draft.flows,
    })
}

/// Reads a text, and of it first the parts that are read by themselves: what stands after its last line, and the number of the line
/// with which that begins.
fn read_text<'a, W: ReadWorkers>(
    workers: &W,
    alloc: Global,
    draft: &mut Draft,
    text: &'a [u8],
) -> Result<(&'a [u8], usize), CertificateFault>
    requires { IsSound (state_of draft.old) }
    ensures same { IfOk result (λ r. read_rest r.1 (state_of draft.new) r.0.now ≡ read_rest 1 (state_of draft.old) text.entry.now) }
    ensures sound { IfOk result (λ _. IsSound (state_of draft.new)) }
    ensures all { IfOk result (λ r. slice_split (λ b. b == 10) r.0.now ≡ r.0.now ∷ []) }
    ensures wrong { IfErr result (λ fault. Gives (read_rest 1 (state_of draft.old) text.entry.now) (Err fault)) }
{
    let (lists, number) = read_lines(alloc, draft, text, 1, false)?;
    let (parts, count) = parts_of(lists);
    let found = workers.lists_of_parts(alloc, lists, &parts[..count])?;
    let (rest, number) = take_lists(draft, lists, number, found)?;
    read_lines(alloc, draft, rest, number, true)
}

impl Certificate {
    ghost use Rattle.sw_cert.specs.Text.{Reads};

    /// The certificate of a text. Of a long text parts are read side by side.
    ///
    /// # Errors
    ///
    /// `Fault`: this line, counted from 1, is the first that is not as the grammar asks after the
    /// lines before it. `Memory`: there is no memory for what the text says; this tells nothing of
    /// the text.
    pub fn read_by<W: ReadWorkers>(
        workers: &W,
        alloc: Global,
        text: &[u8],
    ) -> Result<Certificate, CertificateFault>
        ensures { Reads text.now result }
    {
        let mut draft = Draft::new(alloc, Expected::Title);
        match read_text(workers, alloc, &mut draft, text) {
            Ok((rest, number)) => finish(draft, rest, number),
            Err(fault) => Err(fault),
        }
    }

    /// The certificate of a text, as `read_by` reads it in one thread.
    ///
    /// # Errors
    ///
    /// As `read_by`.
    pub fn read(alloc: Global, text: &[u8]) -> Result<Certificate, CertificateFault>
        ensures { Reads text.now result }
    {
        Certificate::read_by(&OneByOne, alloc, text)
    }
}

impl Certificate {
    /// The certificate's text, in its one spelling.
    ///
    /// # Errors
    ///
    /// There is no memory for the text.
    pub fn write(&self, alloc: Global) -> Result<Vec<u8>, AllocError>
        ensures { IfOk result (λ text. text.items ≡ spelling self.now.numbers self.now.places) }
    {
        spell(alloc, &self.numbers, &self.places)
    }

    /// The same text in parts. The workers make those of the lists, of a long text side by side.
    ///
    /// # Errors
    ///
    /// There is no memory for the text.
    pub fn write_by<W: WriteWorkers>(
        &self,
        workers: &W,
        alloc: Global,
    ) -> Result<TextParts, AllocError>
        ensures { IfOk result (λ text. text ≡ spelling self.now.numbers self.now.places) }
    {
        spell_by(workers, alloc, &self.numbers, &self.places)
    }
}

impl Certificate {
    ghost use Rattle.std.specs.Prelude.{slice_get};
    ghost use Rattle.sw_cert.specs.Grammar.{IsBlock};

    /// The numbers of the channels, by channel: at most 2,048.
    pub fn numbers(&self) -> &[u16]
        ensures numbers { result.now ≡ self.now.numbers }
        ensures few { length result.now ≤ 2048 }
    {
        &self.numbers
    }

    /// For how many flows it lists places: at most 8,192.
    pub fn flows(&self) -> usize
        ensures count { result ≡ length self.now.places }
        ensures few { result ≤ 8192 }
    {
        self.places.len()
    }

    /// The places that it lists for the flow of that number, rising by channel and then by deleted bytes.
    pub fn places(&self, flow: u16) -> &[Place]
        requires { flow < length self.now.places }
        ensures places { slice_get self.now.places flow ≡ Some result.now }
        ensures block { IsBlock result.now }
    {
        &self.places[flow as usize]
    }
}
