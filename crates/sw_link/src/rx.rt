//! The receiving end of a channel.
ghost use Rattle.std.specs.Prelude.{◌≡◌, ℕ, ◌<◌, ◌≤◌, ◌+◌, [], ◌∷◌, ◌++◌, length, IfOk, IsTrue, slice_get};

use crate::flow_control::{ASKED_BY_FCT, MAX_BEFORE_FCT};
use circular_buffer::HeapCircularBuffer;
use std::alloc::{AllocError, Global};
use std::marker::Model;
use sw_char::NChar;

/// The receiving end of a channel: its buffer, and how many N-Chars it has asked for that did
/// not arrive yet (ECSS-E-ST-50-12C, data link layer: flow control).
#[derive(Drop)]
pub struct RxEnd {
    ring: HeapCircularBuffer<NChar>,
    outstanding: u8,
}

impl Model for RxEnd {
    ghost use Rattle.sw_link.specs.Ends.{Received, Fits};

    ghost Value = { Received };

    ghost view = { λ e. record { buffer = e.ring.items; outstanding = e.outstanding; capacity = e.ring.capacity } };

    ghost invariant = { λ e. Fits e.ring.items e.outstanding e.ring.capacity };
}

impl RxEnd {
    ghost use Rattle.sw_link.specs.Ends.{asked, arrived, may_issue, IsCapacity};

    /// An end with an empty buffer that asked for nothing yet. Its buffer is made here, and holds
    /// `capacity` N-Chars: 8 to 4,096.
    ///
    /// # Errors
    ///
    /// There is no memory for the buffer.
    pub fn new(alloc: Global, capacity: usize) -> Result<RxEnd, AllocError>
        requires { IsCapacity capacity }
        ensures { IfOk result (λ e. e ≡ record { buffer = []; outstanding = 0; capacity = capacity }) }
    {
        let ring = HeapCircularBuffer::with_capacity(alloc, capacity)?;
        Ok(RxEnd {
            ring,
            outstanding: 0,
        })
    }

    /// How many N-Chars are in the buffer.
    pub fn len(&self) -> usize
        ensures value { result ≡ length self.now.buffer }
        ensures room { result + self.now.outstanding ≤ self.now.capacity }
    {
        self.ring.len()
    }

    /// The N-Chars that arrived and were not taken, the oldest first: those of the first slice, then
    /// those of the second.
    pub fn buffer(&self) -> (&[NChar], &[NChar])
        ensures { result.0.now ++ result.1.now ≡ self.now.buffer }
    {
        self.ring.as_slices()
    }

    /// How many N-Chars were asked for and did not arrive yet: 0 to 56 (ECSS-E-ST-50-12C, data link
    /// layer: flow control).
    pub fn outstanding(&self) -> u8
        ensures value { result ≡ self.now.outstanding }
        ensures most { result ≤ 56 }
    {
        self.outstanding
    }

    /// Is there room for eight more N-Chars, and are at most 48 outstanding (ECSS-E-ST-50-12C, data
    /// link layer: flow control)?
    pub fn can_issue(&self) -> bool
        ensures { result ≡ may_issue self.now }
    {
        let asked = self.outstanding as usize + ASKED_BY_FCT as usize;
        self.ring.len() + asked <= self.ring.capacity() && self.outstanding <= MAX_BEFORE_FCT
    }

    /// An FCT leaves: eight more N-Chars are asked for (ECSS-E-ST-50-12C, data link layer: flow
    /// control).
    pub fn issue(&mut self)
        requires { IsTrue (may_issue self.old) }
        ensures { self.new ≡ asked self.old }
    {
        self.outstanding += ASKED_BY_FCT;
    }

    /// An N-Char arrives from the wire and goes to the end of the buffer (ECSS-E-ST-50-12C, data link
    /// layer: flow control).
    #[inline(always)]
    pub fn arrive(&mut self, character: NChar)
        requires { 0 < self.old.outstanding }
        ensures { self.new ≡ arrived character self.old }
    {
        let _ = self.ring.try_push_back(character);
        self.outstanding -= 1;
    }

    /// The N-Char at the front of the buffer.
    pub fn front(&self) -> Option<NChar>
        ensures { result ≡ slice_get self.now.buffer 0 }
    {
        self.ring.front().copied()
    }

    /// The N-Char at the front leaves the buffer.
    #[inline(always)]
    pub fn take(&mut self) -> NChar
        requires { 0 < length self.old.buffer }
        ensures { self.old ≡ record self.new { buffer = result ∷ self.new.buffer } }
    {
        match self.ring.pop_front() {
            Some(character) => character,
            None => unreachable!(),
        }
    }
}
