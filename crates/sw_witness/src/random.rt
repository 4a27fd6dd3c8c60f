//! Numbers that look random, for the search.

/// The state of a generator, one step of which is a linear congruence modulo 2^64.
#[derive(Clone, Copy)]
pub(crate) struct Random {
    state: u64,
}

impl Random {
    /// The generator of that seed, for that try.
    pub(crate) fn new(seed: u32, turn: u32) -> Random {
        let state = (u64::from(seed) << 32) ^ u64::from(turn);
        let mut random = Random { state };
        let _first = random.next();
        let _second = random.next();
        random
    }

    /// The next number: the high half of the next state.
    pub(crate) fn next(&mut self) -> u32 {
        self.state = self
            .state
            .wrapping_mul(6_364_136_223_846_793_005)
            .wrapping_add(1_442_695_040_888_963_407);
        (self.state >> 33) as u32
    }

    /// A number below the bound; 0 where that is 0.
    pub(crate) fn below(&mut self, bound: usize) -> usize {
        let next = self.next() as usize;
        if bound == 0 { 0 } else { next % bound }
    }

    /// A number below the bound; 0 where that is 0.
    pub(crate) fn number(&mut self, bound: u16) -> u16 {
        match u16::try_from(self.below(usize::from(bound))) {
            Ok(number) => number,
            Err(_) => 0,
        }
    }
}
