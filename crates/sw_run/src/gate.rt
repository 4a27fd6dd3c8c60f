//! What a run tells while it goes on.

use sw_cell::CellId;

/// Is told of each decision and of each step. A call may wait, and the run waits with it. Which
/// locks a worker holds then no clause can say: it is tested.
pub trait Gate {
    /// A worker holds the lock of the cell, and is about to choose what the cell does next: one step
    /// or several, or none where another worker has the journal then.
    fn decides(&self, cell: CellId);

    /// A step of the cell was committed, and the worker holds no lock. It is called once for each step
    /// of a turn, after all of them.
    fn commits(&self, cell: CellId);
}

/// A gate that does nothing.
#[derive(Drop)]
pub struct Open;

impl Gate for Open {
    fn decides(&self, _cell: CellId) {}

    fn commits(&self, _cell: CellId) {}
}
