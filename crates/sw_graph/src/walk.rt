//! The numbers that a walk has found.
ghost use Rattle.std.specs.Prelude.{◌≡◌, ◌<◌, ◌≤◌, ◌↔◌, ℕ, length, slice_index, Contains, IfOk, IfNone, IfSome, OnOk, OnErr, []};
ghost use Rattle.std.specs.List.Sorted.{IsStrictlyIncreasing};
ghost use Rattle.sw_graph.specs.Walks.{Found, with_number};

use std::alloc::{AllocError, Global};
use std::marker::Model;

/// Numbers below a bound, each once, in the order in which they were found.
#[derive(Drop)]
pub struct Walk {
    is_found: Vec<bool>,
    numbers: Vec<usize>,
}

impl Model for Walk {
    ghost use Rattle.std.specs.Prelude.{length};
    ghost use Rattle.sw_graph.specs.Walks.{Found, IsWalk};

    ghost Value = { Found };

    ghost view = { λ w. record { bound = length w.is_found.items; numbers = w.numbers.items } };

    ghost invariant = { λ w. IsWalk w.is_found.items w.numbers.items };
}

/// Numbers are sorted where there are more marks than so many for each of them, and else read off the marks, which is quicker.
const MARKS_A_NUMBER: usize = 16;

impl Walk {
    /// No numbers yet, of those below the bound.
    ///
    /// # Errors
    ///
    /// There is no memory for a mark for each number below the bound.
    pub fn new(alloc: Global, bound: usize) -> Result<Walk, AllocError>
        ensures { IfOk result (λ w. w ≡ record { bound = bound; numbers = [] }) }
    {
        Ok(Walk {
            is_found: vec![in alloc; false; bound]?,
            numbers: Vec::new(alloc),
        })
    }

    /// How many numbers there are.
    pub fn len(&self) -> usize
        ensures len { result ≡ length self.now.numbers }
        ensures few { result ≤ self.now.bound }
    {
        self.numbers.len()
    }

    /// The number at this place of the list.
    pub fn at(&self, place: usize) -> usize
        requires { place < length self.now.numbers }
        ensures number { result ≡ slice_index self.now.numbers place }
        ensures below { result < self.now.bound }
    {
        self.numbers[place]
    }

    /// The place of a number in the list.
    pub fn place_of(&self, number: usize) -> Option<usize>
        ensures found { IfSome result (λ place. (place < length self.now.numbers) × (slice_index self.now.numbers place ≡ number)) }
        ensures none { IfNone result (Contains self.now.numbers number → ⊥) }
    {
        for place in 0..self.numbers.len() {
            if self.numbers[place] == number {
                return Some(place);
            }
        }
        None
    }

    /// Adds a number, if it is new.
    ///
    /// # Errors
    ///
    /// There is no memory for it: then the walk is as it was.
    pub fn add(&mut self, number: usize) -> Result<(), AllocError>
        requires { number < self.old.bound }
        ensures bound { self.new.bound ≡ self.old.bound }
        ensures ok { OnOk result (self.new.numbers ≡ with_number self.old.numbers number) }
        ensures err { OnErr result (self.new.numbers ≡ self.old.numbers) }
    {
        if self.is_found[number] {
            return Ok(());
        }
        self.numbers.push(number)?;
        self.is_found[number] = true;
        Ok(())
    }

    /// The numbers in rising order.
    ///
    /// # Errors
    ///
    /// There is no memory for them.
    pub fn into_sorted(self) -> Result<Vec<usize>, AllocError>
        ensures rising { IfOk result (λ v. IsStrictlyIncreasing v.items) }
        ensures same { IfOk result (λ v. (n : ℕ) → Contains self.numbers n ↔ Contains v.items n) }
    {
        let Walk {
            is_found,
            mut numbers,
        } = self;
        if numbers.len() < is_found.len() / MARKS_A_NUMBER {
            numbers.sort_unstable();
            return Ok(numbers);
        }
        numbers.clear();
        for number in 0..is_found.len() {
            if is_found[number] {
                numbers.push(number)?;
            }
        }
        Ok(numbers)
    }
}
