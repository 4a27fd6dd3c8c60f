//! A certificate that is being read.
ghost use Rattle.std.specs.Prelude.{◌≡◌, [], OnOk, IfOk};
ghost use Rattle.sw_cert.specs.Reading.{Follows, state_of, with_place, with_said};

use crate::lines::{Expected, Said, next_expected, said_by};
use std::alloc::{AllocError, Global};
use std::mem;
use sw_flow::Place;

/// What the lines so far have said.
#[derive(Drop)]
pub(crate) struct Draft {
    pub(crate) expected: Expected,
    pub(crate) numbers: Vec<u16>,
    pub(crate) flows: Vec<Vec<Place>>,
    pub(crate) block: Vec<Place>,
}

impl Draft {
    /// Adds a place to the block, and a block that is whole to the lists.
    fn add_place(&mut self, alloc: Global, place: Place) -> Result<(), AllocError>
        ensures { OnOk result (state_of self.new ≡ with_place (state_of self.old) place self.old.expected) }
    {
        self.block.push(place)?;
        if let Expected::Places(0, _) = self.expected {
            let block = mem::replace(&mut self.block, Vec::new(alloc));
            self.flows.push(block)?;
        }
        Ok(())
    }

    fn add(&mut self, alloc: Global, said: Said) -> Result<(), AllocError>
        ensures { OnOk result (state_of self.new ≡ with_said (state_of self.old) said) }
    {
        match said {
            Said::Number(v) => self.numbers.push(v)?,
            Said::PlaceCount(0) => self.flows.push(Vec::new(alloc))?,
            Said::Listed(place) => return self.add_place(alloc, place),
            _ => {}
        }
        Ok(())
    }
}

impl Draft {
    /// Reads a line: whether it is as the grammar asks.
    pub(crate) fn read_line(&mut self, alloc: Global, line: &[u8]) -> Result<bool, AllocError>
        ensures { IfOk result (λ right. Follows (state_of self.old) line.now right (state_of self.new)) }
    {
        let expected = self.expected;
        let last = self.block.last().copied();
        let Some(said) = said_by(expected, last, line) else {
            return Ok(false);
        };
        let next = next_expected(expected, &said);
        self.add(alloc, said)?;
        self.expected = next;
        Ok(true)
    }
}

impl Draft {
    /// With nothing read, where this is expected.
    pub(crate) fn new(alloc: Global, expected: Expected) -> Draft
        ensures { state_of result ≡ record { expected = expected; numbers = []; flows = []; open_block = [] } }
    {
        Draft {
            expected,
            numbers: Vec::new(alloc),
            flows: Vec::new(alloc),
            block: Vec::new(alloc),
        }
    }
}
