//! What the numbers of a cell decide. These functions do nothing: each is the proof of what its clause says.
ghost use Rattle.sw_journal.specs.Laws.{HasNumbers, IsByNumbers, OfNowCells};

/// Where a cell has its numbers in the state after the history, an FCT may be the next step there
/// exactly where its numbers for the channel have room for eight more, and at most 48 outstanding.
pub fn fct_by_numbers()
    ensures decided { OfNowCells IsByNumbers }
    ensures known { OfNowCells HasNumbers }
{}
