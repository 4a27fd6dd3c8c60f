//! What can be asked of a journal.
ghost use Rattle.std.specs.Prelude.{◌≡◌, ◌↔◌, ◌<◌, ◌*◌, IfOk, IsSome, IsTrue, Some, length, slice_get, slice_set};
ghost use Rattle.sw_history.specs.Next.{IsIdle, MayFollow};
ghost use Rattle.sw_journal.specs.Asked.{BroughtOut, IsDrained, IsKeptBack, IsOwed, IsStuck, IsStill, IsUndelivered, IsWaiting};
ghost use Rattle.sw_journal.specs.Cells.{end_numbers};
ghost use Rattle.sw_journal.specs.Record.{Declares, IsTrueView, with_marks};
ghost use Rattle.sw_load.specs.History.{IsWhole, packets_of};
ghost use Rattle.sw_machine.specs.Steps.{Step as MachineStep};
ghost use Rattle.sw_machine.specs.Model.{network_of};

use crate::cell::Cell;
use crate::journal::Journal;
use std::alloc::{AllocError, Global};
use sw_char::Packet;
use sw_history::Record;
use sw_topo::LinkEnd;

impl<'n> Journal<'n> {
    /// After how many steps the link end was found idle last, if ever.
    pub fn mark(&self, end: LinkEnd) -> Option<u64>
        requires { end < 2 * length self.now.declared.links }
        ensures { slice_get self.now.marks end ≡ Some result }
    {
        self.marks[end.number() as usize]
    }

    /// Whether no step of the link end may be the next.
    pub(crate) fn is_idle(&self, end: LinkEnd) -> bool
        ensures { IsTrue result ↔ IsIdle (network_of self.now.declared) (packets_of self.now.load) self.now.history end }
    {
        if end.number() >= self.history.network().channels() {
            return true;
        }
        self.history.is_idle(end)
    }

    /// The link end is marked as idle now.
    pub(crate) fn set_mark(&mut self, end: LinkEnd)
        requires { IsIdle (network_of self.old.declared) (packets_of self.old.load) self.old.history end }
        ensures { self.new ≡ with_marks self.old (slice_set self.old.marks end (Some (length self.old.history))) }
    {
        let count = self.history.len() as u64;
        let place = end.number() as usize;
        if place >= self.marks.len() {
            return;
        }
        self.marks[place] = Some(count);
    }

    /// Whether no step of the link end, which is one of the cell's, may be the next, the beginning of
    /// its node's next packet included. Then the link end is marked.
    pub fn declare_idle(&mut self, end: LinkEnd, cell: &Cell) -> bool
        requires journal { cell.now.name ≡ self.old.name }
        requires end { IsSome (end_numbers cell.now.ends end) }
        ensures { Declares self.old end result self.new }
    {
        if !self.is_idle(end) {
            return false;
        }
        self.set_mark(end);
        true
    }

    /// How many characters are undelivered after the history: in buffers, on wires, still to send,
    /// and of replies that wait, their end markers counted.
    pub fn undelivered(&self) -> u64
        ensures count { IsUndelivered self.now result }
        ensures true_view { IsTrueView self.now }
    {
        self.history.net().undelivered()
    }

    /// How many replies the node owes after the history. There are none at a node that is not there.
    pub fn owed(&self, node: u16) -> usize
        ensures { IsOwed self.now node result }
    {
        if node >= self.history.network().nodes() {
            return 0;
        }
        self.history.net().owed(node)
    }

    /// The whole packets that came out at the node in the history, in their order.
    ///
    /// # Errors
    ///
    /// There is no memory for the packets.
    pub fn came_out(&self, alloc: Global, node: u16) -> Result<Vec<Packet>, AllocError>
        requires { node < length self.now.declared.nodes }
        ensures { IfOk result (λ packets. BroughtOut self.now node packets.items) }
    {
        self.history.net().came_out(alloc, node)
    }

    /// Whether the whole load is begun and nothing is undelivered.
    pub fn is_drained(&self) -> bool
        ensures { IsTrue result ↔ IsDrained self.now }
    {
        self.history.is_whole() && self.undelivered() == 0
    }

    /// Whether no step may be the next.
    fn is_still(&self) -> bool
        ensures { IsTrue result ↔ IsStill self.now }
    {
        for number in 0..self.history.network().channels() {
            if !self.is_idle(LinkEnd::new(number)) {
                return false;
            }
        }
        true
    }

    /// Whether no step may be the next while characters are undelivered.
    pub fn is_stuck(&self) -> bool
        ensures { IsTrue result ↔ IsStuck self.now }
    {
        self.undelivered() != 0 && self.is_still()
    }

    /// Whether no step may be the next and nothing is undelivered, while something of the load is not
    /// begun: the next packet of each node that has one is kept back by the limit on unanswered commands
    /// of the node where it ends.
    pub fn is_waiting(&self) -> bool
        ensures waiting { IsTrue result ↔ IsWaiting self.now }
        ensures kept_back { IsTrue result → IsKeptBack self.now }
    {
        // Names the network and the load, which are sound by the history's type.
        let _network = self.history.network();
        if self.history.is_whole() {
            return false;
        }
        if self.undelivered() != 0 {
            return false;
        }
        self.is_still()
    }

    /// The history.
    pub fn into_history(self) -> Record<'n>
        ensures steps { result ≡ self.entry.history }
        ensures true_view { IsTrueView self.entry }
    {
        let Journal {
            history,
            limit: _,
            marks: _,
            table: _,
            seat: _,
            places: _,
        } = self;
        history.into_steps()
    }

    /// Lets the journal go. `drop` does the same, and has the crate that calls it prove the drop of each part once more.
    pub fn discard(self) {
        drop(self.into_history());
    }
}
