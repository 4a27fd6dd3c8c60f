//! The lists of a certificate, written in parts, side by side or in one.
ghost use Rattle.std.specs.Prelude.{◌≡◌, ◌<◌, IfOk, map};
ghost use Rattle.std.specs.Thread.{IsSync};
ghost use Rattle.sw_cert.specs.PartTexts.{lists_text};
ghost use Rattle.sw_cert.specs.Pieces.{AreHeads, AreTails};
ghost use Rattle.sw_cert.specs.Reading.{items_of};
ghost use Rattle.sw_text.specs.Parts.{joined};

use crate::write::{heads_of, lists_text, tails_of};
use rayon::prelude::*;
use std::alloc::{AllocError, Global};
use std::thread::Threads;
use sw_flow::Place;
use sw_graph::{OneByOne, SideBySide, Workers};

/// A part has at least about so many places.
const LEAST_PLACES: usize = 4_096;
/// Lists are cut into about so many parts at most.
const PARTS: usize = 64;

/// Who writes the lists of a certificate.
pub trait WriteWorkers: Workers {
    /// The text of the lists of flows, in parts. It is made faster where all places are at channels below `channels`.
    ///
    /// # Errors
    ///
    /// There is no memory for the text.
    fn texts_of_lists(
        &self,
        alloc: Global,
        channels: usize,
        flows: &[Vec<Place>],
    ) -> Result<Vec<Vec<u8>>, AllocError>
        requires shared { IsSync Self.Shared.row }
        ensures { IfOk result (λ parts. joined parts.items ≡ lists_text (map items_of flows.now)) };
}

/// How many flows have their lists in one part. It decides only time.
fn flows_a_part(flows: &[Vec<Place>]) -> usize
    ensures { 0 < result }
{
    let mut places = 0usize;
    for list in flows {
        places = places.saturating_add(list.len());
    }
    let parts = (places / LEAST_PLACES).min(PARTS).max(1);
    (flows.len() / parts).max(1)
}

/// The text of the lists of flows, in parts, each made by one of as many threads as there are processors.
fn texts_side_by_side<R: Threads + Sync>(
    rt: &R,
    alloc: Global,
    heads: &[String],
    tails: &[String],
    flows: &[Vec<Place>],
) -> Result<Vec<Vec<u8>>, AllocError>
    requires heads { AreHeads heads.now }
    requires tails { AreTails tails.now }
    ensures { IfOk result (λ parts. joined parts.items ≡ lists_text (map items_of flows.now)) }
{
    let texts: Result<Vec<Vec<u8>>, AllocError> = flows
        .par_chunks(flows_a_part(flows))
        .with_min_len(1)
        .map(
            |part: &[Vec<Place>]| -> Result<Vec<u8>, AllocError>
                requires heads { AreHeads heads.now }
                requires tails { AreTails tails.now }
                ensures { IfOk result (λ text. text.items ≡ lists_text (map items_of part.now)) }
            { lists_text(alloc, heads, tails, part) },
        )
        .collect(rt, alloc)?;
    texts
}

impl<R: Threads + Sync> WriteWorkers for SideBySide<'_, R> {
    fn texts_of_lists(
        &self,
        alloc: Global,
        channels: usize,
        flows: &[Vec<Place>],
    ) -> Result<Vec<Vec<u8>>, AllocError> {
        let heads = heads_of(alloc, channels)?;
        let tails = tails_of(alloc)?;
        texts_side_by_side(self.handle(), alloc, &heads, &tails, flows)
    }
}

impl WriteWorkers for OneByOne {
    fn texts_of_lists(
        &self,
        alloc: Global,
        channels: usize,
        flows: &[Vec<Place>],
    ) -> Result<Vec<Vec<u8>>, AllocError> {
        let heads = heads_of(alloc, channels)?;
        let tails = tails_of(alloc)?;
        let text = lists_text(alloc, &heads, &tails, flows)?;
        let mut parts = Vec::new(alloc);
        parts.push(text)?;
        Ok(parts)
    }
}
