//! The grants of a run: an output goes to the input that its arbiter picks.
ghost use Rattle.std.specs.Prelude.{◌≡◌, ◌≢◌, ◌*◌, ◌<◌, Some, length, slice_get};
ghost use Rattle.sw_cell.specs.Places.{machine_cell};
ghost use Rattle.sw_flow.specs.Places.{ends_of};
ghost use Rattle.sw_journal.specs.Record.{CanCommit};
ghost use Rattle.sw_machine.specs.Network.{AtSwitch};
ghost use Rattle.sw_machine.specs.Steps.{Grant};
ghost use Rattle.sw_run.specs.Grants.{AreAskers, Grants, IsPicked};

use crate::outcome::Stop;
use crate::run_cell::RunCell;
use crate::run_identity::RunIdentity;
use crate::run_journal::RunJournal;
use crate::turn::Turn;
use std::alloc::Global;
use sw_arb::Arbiter;
use sw_cell::CellId;
use sw_machine::{Move, Step};
use sw_topo::{Chan, LinkEnd, PlaceEnd, Port, PortSet};

impl<W: RunIdentity> RunJournal<'_, W> {
    /// The channel that ends at the input that the output's arbiter picks, of those at these ports,
    /// which ask. The output is that of the link end, at this port of the switch, which is the cell.
    fn pick_input(
        &self,
        locked: &mut RunCell<W>,
        w: u16,
        out: Port,
        end: LinkEnd,
        asking: PortSet,
    ) -> Chan
        requires at { machine_cell locked.old.cell.id ≡ AtSwitch w }
        requires starts { slice_get (ends_of W.declared) end ≡ Some (PlaceEnd.Switch w out) }
        requires ask { AreAskers self.now.journal end asking }
        requires some { asking ≢ 0 }
        ensures can { CanCommit self.now.journal locked.old.cell.id (Grant end result) }
        ensures picked { IsPicked self.now.journal locked.old.arbiters.items end result locked.new.arbiters.items }
        ensures cell { locked.new.cell ≡ locked.old.cell }
    {
        let topology = self.network.topology();
        let input = locked.arbiters[out.number() as usize].pick(asking);
        let back = topology.out_of(w, input).unwrap();
        back.partner()
    }

    /// Grants the output of the link end to the input that its arbiter picks among those that ask
    /// (ECSS-E-ST-50-12C, network layer: arbitration), if some do.
    pub(crate) fn grant(&mut self, alloc: Global, locked: &mut RunCell<W>, end: LinkEnd) -> Turn
        requires { end < 2 * length W.declared.links }
        ensures { Grants self.old.journal locked.old.cell.id locked.old.arbiters.items end result self.new.journal locked.new.arbiters.items }
    {
        let asking = self.journal.asks(end);
        if asking.is_empty() {
            return Turn::Idle;
        }
        // Names how many link ends there are.
        let _ = self.network.channels();
        let PlaceEnd::Switch(w, out) = self.network.topology().start_of(end.sends()) else {
            return Turn::Idle;
        };
        if !locked.cell.id().is(CellId::Switch(w)) {
            return Turn::Idle;
        }
        if self.journal.len() == self.limit {
            return self.notes.end(Stop::JournalFull);
        }
        let channel = self.pick_input(locked, w, out, end, asking);
        self.commit(
            alloc,
            locked,
            end,
            Step::Move(Move::Grant(end.sends(), channel)),
        )
    }
}
