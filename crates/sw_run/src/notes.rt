//! What is noted beside the journal.
ghost use Rattle.std.specs.Prelude.{◌≡◌, ◌⊎◌, ◌||◌, false, IfOk, None, Some};
ghost use Rattle.sw_run.specs.Grants.{turn_of};
ghost use Rattle.sw_run.specs.Notes.{Rests, noted_after};
ghost use Rattle.sw_run.specs.declared.turn.Turn.TheVariants.{Idle, Over};

use crate::outcome::Stop;
use crate::turn::Turn;
use std::alloc::{AllocError, Global};
use sw_journal::JournalFault;
use sw_machine::{Move, Step};
use sw_topo::LinkEnd;

/// What is noted beside the journal of a run: whether the run goes on, and which outputs are granted.
#[derive(Drop)]
pub(crate) struct Notes {
    /// How many link ends there are.
    ends: u16,
    /// So many of them have no mark at the present length.
    awake: u16,
    /// Why the run is over, if it is.
    pub(crate) stop: Option<Stop>,
    /// By link end, to which link end the output was granted last that its input holds.
    outputs: Vec<LinkEnd>,
    /// Whether a reply was sent whole, at a node where only so many commands may be unanswered.
    settled: bool,
}

impl Notes {
    /// Of a run that goes on, in which none of so many link ends has a mark.
    pub(crate) fn new(alloc: Global, ends: u16) -> Result<Notes, AllocError>
        ensures { IfOk result (λ n. (n.ends ≡ ends) × (n.awake ≡ ends) × (n.stop ≡ None)) }
    {
        let outputs = vec![in alloc; LinkEnd::new(0); ends as usize]?;
        Ok(Notes {
            ends,
            awake: ends,
            stop: None,
            outputs,
            settled: false,
        })
    }

    /// Ends the run.
    pub(crate) fn end(&mut self, stop: Stop) -> Turn
        ensures over { result ≡ Over }
        ensures noted { self.new ≡ record self.old { stop = Some stop } }
    {
        self.stop = Some(stop);
        Turn::Over
    }

    /// Notes that a reply was sent whole, if it was.
    pub(crate) fn settles(&mut self, sent: bool)
        ensures { self.new ≡ record self.old { settled = self.old.settled || sent } }
    {
        if sent {
            self.settled = true;
        }
    }

    /// Whether one was since this was asked last.
    pub(crate) fn has_settled(&mut self) -> bool
        ensures settled { result ≡ self.old.settled }
        ensures asked { self.new ≡ record self.old { settled = false } }
    {
        let settled = self.settled;
        self.settled = false;
        settled
    }

    /// One link end more has its mark at the present length. Where all have, nothing can go on.
    pub(crate) fn rest(&mut self) -> Turn
        ensures turn { (result ≡ Idle) ⊎ (result ≡ Over) }
        ensures rests { Rests self.old result self.new }
    {
        self.awake = self.awake.saturating_sub(1);
        if self.awake == 0 {
            return self.end(Stop::Stuck);
        }
        Turn::Idle
    }

    /// Over the link of which link end the step of this link end sends something, if it does: an FCT,
    /// or a character. The output that an input is granted is remembered.
    pub(crate) fn sent_over(&mut self, end: LinkEnd, step: &Step) -> Option<LinkEnd>
        ensures { self.new ≡ record self.old { outputs = self.new.outputs } }
    {
        match step {
            Step::Move(Move::Fct(_) | Move::Emit(_)) => Some(end),
            Step::Move(Move::Forward(_)) => self.outputs.get(end.number() as usize).copied(),
            Step::Move(Move::Grant(output, input)) => {
                if let Some(granted) = self.outputs.get_mut(input.partner().number() as usize) {
                    *granted = LinkEnd::new(output.number());
                }
                None
            }
            _ => None,
        }
    }

    /// What a turn was in which the journal answered so to a step, which sends something over the
    /// link of that link end.
    #[inline(always)]
    pub(crate) fn after(&mut self, made: Result<(), JournalFault>, sent: Option<LinkEnd>) -> Turn
        ensures turn { result ≡ turn_of made sent }
        ensures noted { self.new ≡ noted_after self.old made }
    {
        match made {
            Ok(()) => {
                self.awake = self.ends;
                match sent {
                    Some(at) => Turn::Sent(at),
                    None => Turn::Moved,
                }
            }
            Err(JournalFault::NotEnabled) => Turn::Idle,
            Err(JournalFault::Full) => self.end(Stop::JournalFull),
            Err(JournalFault::Memory) => self.end(Stop::Memory),
        }
    }
}
