//! The choice of a step.
ghost use Rattle.std.specs.Prelude.{◌≡◌, ◌<◌, ◌*◌, IfOk, IsSome, length};
ghost use Rattle.sw_history.specs.Asking.{AreAsking};
ghost use Rattle.sw_journal.specs.Cells.{end_numbers};
ghost use Rattle.sw_journal.specs.Choices.{Chooses, ChoosesOrMarks};
ghost use Rattle.sw_load.specs.History.{packets_of};

use crate::cell::Cell;
use crate::journal::Journal;
use std::alloc::{AllocError, Global};
use sw_machine::Step;
use sw_topo::{LinkEnd, PortSet};

impl<'n> Journal<'n> {
    /// The ports, 0 to 31, to whose inputs the output of the link end can be granted by the next
    /// step (ECSS-E-ST-50-12C, network layer: wormhole routing). There are none at a node.
    pub fn asks(&self, end: LinkEnd) -> PortSet
        ensures { AreAsking self.now.declared (packets_of self.now.load) self.now.history end result }
    {
        self.history.asks(end)
    }

    /// A step of the link end that may be the next, the beginning of its node's next packet included.
    /// None where the link end is idle.
    ///
    /// # Errors
    ///
    /// There is no memory for the step.
    pub fn choose(&self, alloc: Global, end: LinkEnd) -> Result<Option<Step>, AllocError>
        requires { end < 2 * length self.now.declared.links }
        ensures { IfOk result (λ o. Chooses self.now end o) }
    {
        self.history.choose(alloc, end)
    }

    /// The same of a link end of the cell, which is marked where it is idle.
    ///
    /// # Errors
    ///
    /// There is no memory for the step: then nothing has changed.
    pub fn choose_or_mark(
        &mut self,
        alloc: Global,
        end: LinkEnd,
        cell: &Cell,
    ) -> Result<Option<Step>, AllocError>
        requires journal { cell.now.name ≡ self.old.name }
        requires end { IsSome (end_numbers cell.now.ends end) }
        requires within { end < 2 * length self.old.declared.links }
        ensures { ChoosesOrMarks self.old end result self.new }
    {
        match self.choose(alloc, end) {
            Ok(Some(step)) => Ok(Some(step)),
            Ok(None) => {
                self.set_mark(end);
                Ok(None)
            }
            Err(refused) => Err(refused),
        }
    }
}
