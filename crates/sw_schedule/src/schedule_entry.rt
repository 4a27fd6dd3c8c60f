//! A step of a schedule, and how many times it is made.
ghost use Rattle.std.specs.Prelude.{◌≡◌, IfOk, option_map};
ghost use Rattle.sw_schedule.specs.Kept.{cargo_bytes};
ghost use Rattle.sw_machine.specs.StepValues.{machine_move, machine_step};

use crate::cargo::Cargo;
use std::alloc::{AllocError, Global};
use std::marker::Model;
use sw_char::End;
use sw_machine::{Move, Step};

/// A step that begins a packet, in no more memory than a few times its text.
#[derive(Drop)]
pub(crate) struct BeginStep {
    pub(crate) flow: u16,
    pub(crate) cargo: Cargo,
    pub(crate) end: End,
}

/// How many times a step is made, and the step, in 16 bytes: what has cargo stands elsewhere.
#[derive(Drop)]
pub(crate) enum Packed {
    Plain(u32, Move),
    WithCargo(u32, Box<BeginStep>),
}

/// A step, and how many times it is made, one after another.
#[derive(Drop)]
pub struct ScheduleEntry {
    pub(crate) packed: Packed,
}

impl Model for ScheduleEntry {
    ghost use Rattle.sw_schedule.specs.Lines.{Repeated};
    ghost use Rattle.sw_schedule.specs.Kept.{packed_count, packed_step};

    ghost Value = { Repeated };

    ghost view = { λ e. record { count = packed_count e.packed; step = packed_step e.packed } };
}

impl ScheduleEntry {
    /// The entry of a step without cargo, if there is one.
    pub(crate) fn plain(count: u32, step: Option<Move>) -> Option<ScheduleEntry>
        ensures { result ≡ option_map (λ s. record { count = count; step = machine_move s }) step }
    {
        match step {
            Some(step) => Some(ScheduleEntry {
                packed: Packed::Plain(count, step),
            }),
            None => None,
        }
    }

    /// How many times the step is made: 1 to 100,000 in a schedule that was read.
    pub fn count(&self) -> u32
        ensures { result ≡ self.now.count }
    {
        match &self.packed {
            Packed::Plain(count, _) | Packed::WithCargo(count, _) => *count,
        }
    }

    /// The step.
    ///
    /// # Errors
    ///
    /// There is no memory for the cargo of the packet that it begins.
    pub fn step(&self, alloc: Global) -> Result<Step, AllocError>
        ensures { IfOk result (λ s. machine_step s ≡ self.now.step) }
    {
        match &self.packed {
            Packed::Plain(_, step) => Ok(Step::Move(*step)),
            Packed::WithCargo(_, beginning) => Ok(Step::Begin {
                flow: beginning.flow,
                cargo: match &beginning.cargo {
                    Cargo::Bytes(bytes) => Vec::from_slice(alloc, bytes)?,
                    Cargo::Repeated(byte, times) => vec![in alloc; *byte; *times as usize]?,
                },
                end: beginning.end,
            }),
        }
    }
}
