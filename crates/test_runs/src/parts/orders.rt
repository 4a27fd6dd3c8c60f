//! Levels of relations, and cycles to show.
ghost use Rattle.std.specs.Prelude.{◌≡◌, true};
ghost use Rattle.sw_graph.specs.Rows.{IsGraph};

use std::alloc::Global;
use sw_graph::{OneByOne, Order, RoundWorkers, add_to_row, empty_rows, order};

/// Adds the steps between members, each at the end of a row.
fn add_steps(rows: &mut [Vec<u16>], steps: &[(u16, u16)]) -> bool
    requires { IsGraph rows.old }
    ensures { result ≡ true → IsGraph rows.new }
{
    for &(from, to) in steps {
        let (place, successor) = (usize::from(from), usize::from(to));
        if rows.len() <= place || rows.len() <= successor {
            return false;
        }
        if add_to_row(rows, place, true, to).is_err() {
            return false;
        }
    }
    true
}

/// The members have these levels, or, as an error, this cycle is shown.
fn has_order<C: RoundWorkers>(
    workers: &C,
    alloc: Global,
    count: usize,
    steps: &[(u16, u16)],
    wanted: Result<&[u16], &[u16]>,
) -> bool {
    let Ok(mut rows) = empty_rows(alloc, count) else {
        return false;
    };
    if !add_steps(&mut rows, steps) || 65536 <= rows.len() {
        return false;
    }
    match order(workers, alloc, &rows) {
        Ok(Order::Levels(levels)) => wanted == Ok(levels.as_slice()),
        Ok(Order::Cycle(cycle)) => wanted == Err(cycle.as_slice()),
        Err(_) => false,
    }
}

/// How many members, the steps between them, and the levels or the cycle.
type Case = (
    usize,
    &'static [(u16, u16)],
    Result<&'static [u16], &'static [u16]>,
);

const CASES: &[Case] = &[
    (0, &[], Ok(&[])),
    (4, &[(2, 1), (1, 0), (0, 3)], Ok(&[2, 1, 0, 3])),
    (
        4,
        &[(0, 1), (0, 2), (1, 3), (2, 3), (0, 3)],
        Ok(&[0, 1, 1, 2]),
    ),
    // A step to itself is a cycle.
    (3, &[(0, 1), (1, 1), (1, 2)], Err(&[1])),
    // A ring is shown from its least member on.
    (
        5,
        &[(1, 2), (2, 3), (3, 1), (3, 4), (4, 0)],
        Err(&[1, 2, 3]),
    ),
    // Of two cycles the least predecessors lead to one.
    (
        5,
        &[(4, 3), (3, 4), (1, 2), (2, 1), (4, 0), (2, 0)],
        Err(&[1, 2]),
    ),
];

/// Relations have levels or a cycle.
pub(crate) fn are_found(alloc: Global) -> bool {
    for (count, steps, wanted) in CASES {
        if !has_order(&OneByOne, alloc, *count, steps, *wanted) {
            return false;
        }
    }
    true
}

/// Of so many members the last leads to the first.
pub(crate) fn are_many<C: RoundWorkers>(workers: &C, alloc: Global) -> bool {
    match vec![in alloc; 0; 5000] {
        Ok(mut levels) => {
            levels[0] = 1;
            has_order(workers, alloc, 5000, &[(4999, 0)], Ok(&levels))
        }
        Err(_) => false,
    }
}
