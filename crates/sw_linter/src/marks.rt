//! What is noted of switches and channels, in one pass over the places of all flows.
ghost use Rattle.std.specs.Prelude.{◌≡◌, ◌<◌, ◌≤◌, ◌+◌, ◌*◌, ◌-◌, IfOk, IfSome, OnOk, Option, length, option_map};
ghost use Rattle.sw_topo.specs.declared.place.PlaceEnd.{PlaceEnd};
ghost use Rattle.sw_flow.specs.Places.{ends_of};
ghost use Rattle.sw_linter.specs.Marks.{in_row, switch_at};

use crate::alike::is_like_last;
use crate::asking::{Asking, is_same_wait, waits_at};
use crate::lint::Lint;
use crate::tables::{first_noted, is_any_marked, is_marked, mark, note, note_at};
use std::alloc::{AllocError, Global};
use std::marker::Model;
use sw_config::{Flow, Network};
use sw_flow::{Place, places};
use sw_route::Route;
use sw_topo::{Chan, PlaceEnd};

/// What is noted of the places of flows.
#[derive(Drop)]
pub(crate) struct Marks {
    // For each switch: whether a place is on a channel that starts there.
    starts: Vec<bool>,
    // For each switch: whether a place is on a channel that ends there.
    ends: Vec<bool>,
    // For each switch and each byte: whether packets come there that lead with it.
    arrivals: Vec<bool>,
    // For each channel and each byte: the first flow that has a place there, with that byte in front.
    led: Vec<Option<u16>>,
    // For each channel: the first flow with a reply that has a place there.
    asking: Vec<Option<Asking>>,
    // For each channel: the first of those whose commands may have to wait elsewhere.
    other: Vec<Option<u16>>,
}

impl Model for Marks {
    ghost use Rattle.sw_linter.specs.Marks.{MarkLists};

    ghost Value = { MarkLists };

    ghost view = { λ m. record { starts = m.starts.items; ends = m.ends.items; arrivals = m.arrivals.items; led = m.led.items; asking = m.asking.items; other = m.other.items } };
}

/// The switch at which the end stands, if it is at one.
fn switch_at(end: PlaceEnd) -> Option<usize>
    ensures value { result ≡ switch_at (Option.Some end) }
    ensures small { IfSome result (λ s. s < 65536) }
{
    match end {
        PlaceEnd::Node(_) => None,
        PlaceEnd::Switch(switch, _) => Some(usize::from(switch)),
    }
}

/// The number of the byte in a row of 256, if there are both; none of 255, which no entry is for.
fn in_row(row: Option<usize>, byte: Option<u8>) -> Option<usize>
    requires { IfSome row (λ r. r < 65536) }
    ensures { result ≡ in_row row byte }
{
    match (row, byte) {
        (Some(row), Some(byte)) if byte < 255 => { Some(256 * row + usize::from(byte)) }
        _ => None,
    }
}

/// The least address that the entry is for.
fn first_of(route: &Route) -> usize
    ensures value { result ≡ route.now.first }
    ensures small { result < 256 }
{
    let first = route.first;
    usize::from(first)
}

/// How many addresses the entry is for.
fn count_of(route: &Route) -> usize
    ensures value { result ≡ route.now.last + 1 - route.now.first }
    ensures small { result ≤ 256 }
{
    let last = route.last;
    (usize::from(last) + 1).saturating_sub(first_of(route))
}

impl Marks {
    ghost use Rattle.std.specs.Prelude.{slice_get};
    ghost use Rattle.std.specs.List.{list_any};
    ghost use Rattle.sw_route.specs.declared.look.Route.{Route};
    ghost use Rattle.sw_config.specs.Entries.{all_flows};
    ghost use Rattle.sw_linter.specs.Marks.{IsFlowNoted, IsNoted, first_led, is_met_by, is_used_by, no_places, no_rooms, pair_by, with_command, with_place};

    /// Places for the marks of each switch and each channel, none set.
    fn make_room(&mut self, network: &Network) -> Result<(), AllocError>
        requires { self.old ≡ no_rooms }
        ensures { OnOk result (self.new ≡ no_places network.now) }
    {
        let switches = usize::from(network.switches());
        let channels = usize::from(network.channels());
        self.starts
            .resize(switches, false)
            .and(self.ends.resize(switches, false))
            .and(self.arrivals.resize(256 * switches, false))
            .and(self.led.resize(256 * channels, None))
            .and(self.asking.resize(channels, None))
            .and(self.other.resize(channels, None))
    }

    /// On the place's channel, if the flow has a reply.
    fn note_command(&mut self, network: &Network, number: u16, flow: &Flow, channel: Chan)
        ensures { self.new ≡ with_command network.now self.old number flow.now channel }
    {
        if flow.reply().is_none() {
            return;
        }
        let at = usize::from(channel.number());
        let waits_at = waits_at(network, flow.to());
        match note_at(&self.asking, at) {
            Some(asking) if !is_same_wait(waits_at, asking.waits_at) => {
                note(&mut self.other, Some(at), number)
            }
            Some(_) => {}
            None => note(&mut self.asking, Some(at), Asking { number, waits_at }),
        }
    }

    /// One place more: at the switches where its channel starts and ends, and on the channel.
    fn note_place(&mut self, network: &Network, number: u16, flow: &Flow, place: Place)
        requires { place.channel < length (ends_of network.now) }
        ensures { self.new ≡ with_place network.now self.old (record { number = number; flow = flow.now; place = place }) }
    {
        let topology = network.topology();
        let start = switch_at(topology.start_of(place.channel));
        let end = switch_at(topology.end_of(place.channel));
        let byte = flow.address().get(usize::from(place.deleted)).copied();
        mark(&mut self.starts, start);
        mark(&mut self.ends, end);
        mark(&mut self.arrivals, in_row(end, byte));
        note(
            &mut self.led,
            in_row(Some(usize::from(place.channel.number())), byte),
            number,
        );
        self.note_command(network, number, flow, place.channel);
    }

    /// The places of the flow of that number.
    fn note_number(
        &mut self,
        alloc: Global,
        network: &Network,
        number: u16,
    ) -> Result<(), AllocError>
        requires { number < length (all_flows network.now) }
        ensures { OnOk result (IsFlowNoted network.now number self.old self.new) }
    {
        let listed = places(alloc, network, number)?;
        let flow = network.flow(number);
        for place in &listed {
            self.note_place(network, number, flow, *place);
        }
        Ok(())
    }

    /// The places of all flows of the network. Of a flow like the last one there is nothing new.
    fn note_all(&mut self, alloc: Global, network: &Network) -> Result<(), AllocError>
        requires { self.old ≡ no_rooms }
        ensures { OnOk result (IsNoted network.now self.new) }
    {
        self.make_room(network)?;
        for number in 0..network.flows() {
            if !is_like_last(network, number) {
                self.note_number(alloc, network, number)?;
            }
        }
        Ok(())
    }

    /// What is noted of the places of all flows of the network.
    pub(crate) fn of_network(alloc: Global, network: &Network) -> Result<Marks, AllocError>
        ensures { IfOk result (IsNoted network.now) }
    {
        let mut marks = Marks {
            starts: Vec::new(alloc),
            ends: Vec::new(alloc),
            arrivals: Vec::new(alloc),
            led: Vec::new(alloc),
            asking: Vec::new(alloc),
            other: Vec::new(alloc),
        };
        match marks.note_all(alloc, network) {
            Ok(()) => Ok(marks),
            Err(refused) => {
                drop(marks);
                Err(refused)
            }
        }
    }

    /// Does a flow go over the switch?
    pub(crate) fn is_used(&self, switch: u16) -> bool
        ensures { result ≡ is_used_by self.now switch }
    {
        let at = usize::from(switch);
        is_marked(&self.starts, at) || is_marked(&self.ends, at)
    }

    /// Do packets come to the switch that the entry is for?
    pub(crate) fn is_met(&self, switch: u16, route: &Route) -> bool
        ensures { result ≡ is_met_by self.now switch route.now }
    {
        let from = 256 * usize::from(switch) + first_of(route);
        is_any_marked(&self.arrivals, from, count_of(route))
    }

    /// The first flow with a place on the channel that the entry is for, of those to the least of its addresses.
    pub(crate) fn first_led(&self, route: &Route, channel: Chan) -> Option<u16>
        ensures { result ≡ first_led self.now route.now channel }
    {
        let from = 256 * usize::from(channel.number()) + first_of(route);
        first_noted(&self.led, from, count_of(route))
    }

    /// Two flows with replies that go over the link both ways, to two targets one of which does not always take what comes, if there are
    /// such: of the first ones both ways, and the first ones whose commands may have to wait elsewhere, the first two.
    pub(crate) fn opposed_flows(&self, link: u16) -> Option<Lint>
        ensures { result ≡ pair_by self.now link }
    {
        let a = 2 * usize::from(link);
        let b = a + 1;
        let (Some(onward), Some(back)) = (note_at(&self.asking, a), note_at(&self.asking, b)) else {
            return None;
        };
        if !is_same_wait(back.waits_at, onward.waits_at) {
            return Some(Lint::Opposed {
                link,
                onward: onward.number,
                back: back.number,
            });
        }
        if let Some(number) = note_at(&self.other, b) {
            return Some(Lint::Opposed {
                link,
                onward: onward.number,
                back: number,
            });
        }
        Some(Lint::Opposed {
            link,
            onward: note_at(&self.other, a)?,
            back: back.number,
        })
    }
}
