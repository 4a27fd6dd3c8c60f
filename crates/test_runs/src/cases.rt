//! The cases: what is printed before, the files, and what is done with them.

use crate::journals::tried::{BETWEEN, BOTH, TAKEN, THREE};
use crate::nets::CoreWork::{Drain, Make, Wait};
use crate::nets::calls::{LINK_END, PACKET};
use crate::nets::drained::{Bounds, Choice};
use crate::parts::cycles::{AGAIN, DUEL};
use crate::work::Case;
use crate::work::Work::{Core, Cycles, Engine, Journal, Limit, Run};

const LINE: Bounds = Bounds {
    certificate: "line.cert",
    least: 8,
    most: 48,
};

const TURN: Bounds = Bounds {
    certificate: "turn.cert",
    least: 40,
    most: 11_388,
};

// A line for each case.
macro_rules! cases {
    ($($title:literal $network:literal $load:literal $work:expr;)*) => {
        &[$(($title, $network, $load, $work),)*]
    };
}

/// Loads that are drained.
pub(crate) const DRAINS: &[Case] = cases! {
    "> line.load\nfirst:" "line.toml" "line.load" Core(Drain(&LINE, Choice::First));
    "last:" "line.toml" "line.load" Core(Drain(&LINE, Choice::Last));
    "out of range:" "line.toml" "line.load" Core(Drain(&LINE, Choice::OutOfRange));
    "> turn.load\nfirst:" "turn.toml" "turn.load" Core(Drain(&TURN, Choice::First));
    "last:" "turn.toml" "turn.load" Core(Drain(&TURN, Choice::Last));
    "out of range:" "turn.toml" "turn.load" Core(Drain(&TURN, Choice::OutOfRange));
};

/// Limits that no history reaches.
pub(crate) const LIMITS: &[Case] = cases! {
    "line.load " "line.toml" "line.load" Limit;
    "turn.load " "turn.toml" "turn.load" Limit;
    "rmap.load " "rmap.toml" "rmap.load" Limit;
};

/// Loads whose packets begin as soon as they can.
pub(crate) const WAITS: &[Case] = cases! {
    "> packets that begin as soon as they can\nline.toml line.load: " "line.toml" "line.load" Core(Wait);
    "line8.toml long.load: " "line8.toml" "long.load" Core(Wait);
    "star.toml star.load: " "star.toml" "star.load" Core(Wait);
    "region.toml region.load: " "region.toml" "region.load" Core(Wait);
    "group.toml group.load: " "group.toml" "group.load" Core(Wait);
    "bad.toml faults.load: " "bad.toml" "faults.load" Core(Wait);
    "turn.toml one_each.load: " "turn.toml" "one_each.load" Core(Wait);
    "turn.toml turn.load: " "turn.toml" "turn.load" Core(Wait);
    "ring.toml turn.load: " "ring.toml" "turn.load" Core(Wait);
    "duel.toml answers.load: " "duel.toml" "answers.load" Core(Wait);
    "rmap.toml rmap.load: " "rmap.toml" "rmap.load" Core(Wait);
    "rmap2.toml rmap.load: " "rmap2.toml" "rmap.load" Core(Wait);
    "mixed.toml mixed.load: " "mixed.toml" "mixed.load" Core(Wait);
};

/// Single calls of the core.
pub(crate) const CALLS: &[Case] = cases! {
    "> a packet from A to B\n" "line.toml" "line.load" Core(Make(PACKET));
    "> link end 0\n" "line.toml" "line.load" Core(Make(LINK_END));
};

/// Steps of a journal, and those of two threads.
pub(crate) const JOURNALS: &[Case] = cases! {
    "# steps of journals\n> try line.toml line.load\n" "line.toml" "line.load" Journal(1000, BOTH);
    "> with a limit of 1\n" "line.toml" "line.load" Journal(1, THREE);
    "> by two threads\n" "line.toml" "line.load" Journal(1000, TAKEN);
    "> by two threads, the numbers read before the other sends\n" "line.toml" "line.load" Journal(1000, BETWEEN);
};

/// Runs: three inputs of a switch ask for one output, with each kind of arbiter, and workers wait for one another.
pub(crate) const RUNS: &[Case] = cases! {
    "# runs by threads\n> fixed.toml grants.load\n" "fixed.toml" "grants.load" Run(0);
    "> round_robin.toml grants.load\n" "round_robin.toml" "grants.load" Run(0);
    "> least_recent.toml grants.load\n" "least_recent.toml" "grants.load" Run(0);
    "> turn.toml turn.load together\n" "turn.toml" "turn.load" Run(11);
};

/// The engine of `swcheck run`.
pub(crate) const ENGINES: &[Case] = cases! {
    "# the engine of run\n> turn.toml turn.load together\n" "turn.toml" "turn.load" Engine;
};

/// Cycles of networks, the first of the parts.
pub(crate) const CYCLES: &[Case] = cases! {
    "# the parts of a network\ncycles_of_targets_are_told " "duel.toml" "answers.load" Cycles(DUEL);
    "cycles_of_a_flow_are_told " "again.toml" "line.load" Cycles(AGAIN);
};
