//! The steps of a flow, between the numbers of its places.
ghost use Rattle.std.specs.Prelude.{◌≡◌, ◌<◌, ◌≤◌, ◌+◌, ◌*◌, ◌/◌, ◌%◌, ◌++◌, map, length, OnOk};
ghost use Rattle.sw_flow.specs.Places.{ends_of};

use crate::place::Place;
use crate::walk::followers_in;
use std::alloc::AllocError;
use sw_config::{Chan, Flow, Network};
use sw_graph::Steps;

/// A flow of a network.
#[derive(Drop)]
pub(crate) struct FlowSteps<'a> {
    pub(crate) network: &'a Network,
    pub(crate) flow: &'a Flow,
    ghost short: { length flow.now.address ≤ 32 },
    ghost few: { length (ends_of network.now) ≤ 2048 },
}

/// The place of that number, where each channel has `width` places.
pub(crate) fn place_of(number: usize, width: usize) -> Place
    requires positive { 0 < width }
    requires small { width ≤ 33 }
    requires below { number < 2048 * width }
    ensures { result ≡ record { channel = number / width; deleted = number % width } }
{
    // Flows by a logical address have the most places, and a division by two is a shift.
    if width == 2 {
        return Place {
            channel: Chan::new((number / 2) as u16),
            deleted: (number % 2) as u8,
        };
    }
    Place {
        channel: Chan::new((number / width) as u16),
        deleted: (number % width) as u8,
    }
}

impl Steps for FlowSteps<'_> {
    ghost use Rattle.sw_flow.specs.Numbers.{number_bound, next_numbers};

    ghost bound = { λ s. number_bound s.network.now s.flow.now };

    ghost next = { λ s n. next_numbers s.network.now s.flow.now n };

    #[inline(always)]
    fn push_next(&self, number: usize, to: &mut Vec<usize>) -> Result<(), AllocError> {
        let width = self.flow.address().len() + 1;
        let at = place_of(number, width);
        for place in followers_in(self.network, self.flow, at) {
            to.push(place.channel.number() as usize * width + place.deleted as usize)?;
        }
        Ok(())
    }
}
