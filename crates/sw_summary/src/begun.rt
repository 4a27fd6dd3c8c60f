//! The packets that a history begins.
ghost use Rattle.std.specs.Prelude.{◌≡◌, IfOk, map};
ghost use Rattle.sw_machine.specs.Begun.{beginnings};
ghost use Rattle.sw_machine.specs.StepValues.{machine_step};
ghost use Rattle.sw_summary.specs.Counts.{forms, loaded};

use std::alloc::{AllocError, Global};
use std::marker::Model;
use sw_char::{End, Packet};
use sw_config::Flow;
use sw_load::{Load, LoadPacket};
use sw_machine::{Step, left_bytes};

/// A packet that a history begins.
#[derive(Drop)]
pub(crate) struct Begun<'a> {
    pub(crate) flow: u16,
    pub(crate) cargo: &'a [u8],
    pub(crate) end: End,
}

impl<'a> Model for Begun<'a> {
    ghost use Rattle.sw_machine.specs.Begun as machine;

    ghost Value = { machine.Begun };

    ghost view = { λ b. record { flow = b.flow; cargo = b.cargo.now; end = b.end } };
}

/// The packets that the steps begin.
pub(crate) fn beginnings<'a>(alloc: Global, steps: &'a [Step]) -> Result<Vec<Begun<'a>>, AllocError>
    ensures { IfOk result (λ all. all.items ≡ beginnings (map machine_step steps.now)) }
{
    let mut all = Vec::new(alloc);
    for step in steps {
        let Step::Begin { flow, cargo, end } = step else {
            continue;
        };
        all.push(Begun {
            flow: *flow,
            cargo: cargo.as_slice(),
            end: *end,
        })?;
    }
    Ok(all)
}

/// How many packets of the flow the load has.
pub(crate) fn count_loaded(flow: u16, load: &Load) -> u64
    ensures { result ≡ loaded flow load.now }
{
    // Names the total, which bounds each entry's count.
    let _total = load.total();
    let mut sum = 0;
    for entry in load.packets() {
        if entry.flow() != flow {
            continue;
        }
        sum += u64::from(entry.count());
    }
    sum
}

/// The packets of the flow of that number, as the node at its end gets them.
pub(crate) fn forms(
    alloc: Global,
    flow: &Flow,
    number: u16,
    begun: &[Begun<'_>],
) -> Result<Vec<Packet>, AllocError>
    ensures { IfOk result (λ all. all.items ≡ forms flow.now number begun.now) }
{
    let mut all = Vec::new(alloc);
    for packet in begun {
        if packet.flow != number {
            continue;
        }
        let bytes = [left_bytes(flow), packet.cargo].concat(alloc)?;
        all.push(Packet {
            bytes,
            end: packet.end,
        })?;
    }
    Ok(all)
}
