//! The steps of a history, as they are kept.
ghost use Rattle.std.specs.Prelude.{◌≡◌, All, IfOk, false, map};
ghost use Rattle.sw_history.specs.Next.{begin_of};
ghost use Rattle.sw_history.specs.Noted.{IsNoted, noted_step};
ghost use Rattle.sw_load.specs.History.{packet_of};
ghost use Rattle.sw_load.specs.Senders.{SendersView};
ghost use Rattle.sw_machine.specs.Steps.{is_begin};
ghost use Rattle.sw_machine.specs.StepValues.{machine_step};

use std::alloc::{AllocError, Global};
use std::marker::Model;
use sw_load::{LoadPacket, Senders};
use sw_machine::{Move, Step};

/// A step in few bytes. A beginning is the node that sends, and how many of its packets come before
/// the one that it begins.
#[derive(Clone, Copy)]
pub(crate) enum Noted {
    Move(Move),
    Begin(u16, u16),
}

const _: () = prove!(size_of::<Noted>() <= 8);

/// The step that begins the packet.
pub(crate) fn beginning(alloc: Global, packet: &LoadPacket) -> Result<Step, AllocError>
    ensures { IfOk result (λ step. machine_step step ≡ begin_of (packet_of packet.now)) }
{
    Ok(Step::Begin {
        flow: packet.flow(),
        cargo: Vec::from_slice(alloc, packet.cargo())?,
        end: packet.end(),
    })
}

/// The step that begins the packet of the node that has so many of its packets before it.
fn beginning_step(
    alloc: Global,
    senders: &Senders<'_>,
    node: u16,
    before: u16,
) -> Result<Step, AllocError>
    requires { IsNoted senders.now (Noted.Begin node before) }
    ensures { IfOk result (λ step. machine_step step ≡ noted_step senders.now (Noted.Begin node before)) }
{
    match senders.packet(node, u32::from(before)) {
        Some(packet) => beginning(alloc, packet),
        None => unreachable!(),
    }
}

/// The step that was noted so.
fn step_of(alloc: Global, senders: &Senders<'_>, note: Noted) -> Result<Step, AllocError>
    requires { IsNoted senders.now note }
    ensures { IfOk result (λ step. machine_step step ≡ noted_step senders.now note) }
{
    match note {
        Noted::Begin(node, before) => beginning_step(alloc, senders, node, before),
        Noted::Move(step) => Ok(Step::Move(step)),
    }
}

/// The steps that were noted so.
pub(crate) fn steps_of(
    alloc: Global,
    senders: &Senders<'_>,
    notes: &[Noted],
) -> Result<Vec<Step>, AllocError>
    requires { All (IsNoted senders.now) notes.now }
    ensures { IfOk result (λ all. map machine_step all.items ≡ map (noted_step senders.now) notes.now) }
{
    let mut all = Vec::with_capacity(alloc, notes.len())?;
    for note in notes {
        all.push(step_of(alloc, senders, *note)?)?;
    }
    Ok(all)
}

/// The steps of a history, in eight bytes each.
#[derive(Drop)]
pub struct Record<'n> {
    pub(crate) senders: Senders<'n>,
    pub(crate) notes: Vec<Noted>,
}

impl<'n> Model for Record<'n> {
    ghost use Rattle.std.specs.Prelude.{All, List, map};
    ghost use Rattle.sw_history.specs.Noted.{IsNoted, noted_step};
    ghost use Rattle.sw_machine.specs.Steps.{Step};

    ghost Value = { List Step };

    ghost view = { λ r. map (noted_step r.senders) r.notes.items };

    ghost invariant = { λ r. All (IsNoted r.senders) r.notes.items };
}

impl<'n> Record<'n> {
    ghost use Rattle.std.specs.Prelude.{length};

    /// How many steps there are.
    pub fn len(&self) -> usize
        ensures { result ≡ length self.now }
    {
        self.notes.len()
    }

    /// The steps, in their order.
    ///
    /// # Errors
    ///
    /// There is no memory for the steps.
    pub fn steps(&self, alloc: Global) -> Result<Vec<Step>, AllocError>
        ensures { IfOk result (λ all. map machine_step all.items ≡ self.now) }
    {
        steps_of(alloc, &self.senders, &self.notes)
    }
}
