//! The wires of all channels, and the FCTs under way.
ghost use Rattle.std.specs.Prelude.{◌≡◌, ◌<◌, ◌≤◌, ◌+◌, ◌-◌, ◌++◌, ◌∷◌, [], IfOk, drop, length, replicate, slice_get};
ghost use Rattle.circular_buffer.specs.Buffer.{buffer};
ghost use Rattle.sw_link.specs.Between.{IsBetween, empty_between, fcts_at, wire_at, with_fcts, with_wire};

use crate::flow_control::MAX_OUTSTANDING;
use circular_buffer::HeapCircularBuffer;
use std::alloc::{AllocError, Global};
use std::marker::Model;
use sw_char::NChar;
use sw_topo::Chan;

/// The wires of a network's channels, each with room for 56 N-Chars, and for each channel how many
/// FCTs are under way to its start (ECSS-E-ST-50-12C, data link layer: flow control).
#[derive(Drop)]
pub struct Wires {
    rings: Vec<HeapCircularBuffer<NChar>>,
    fcts: Vec<u8>,
}

impl Model for Wires {
    ghost use Rattle.std.specs.Prelude.{◌≡◌, All, length, map};
    ghost use Rattle.sw_link.specs.Between.{Between, between_of};

    ghost Value = { Between };

    ghost view = { λ w. between_of (map (λ q. q.items) w.rings.items) w.fcts.items };

    ghost invariant = { λ w. All (λ q. q.capacity ≡ 56) w.rings.items × (length w.fcts.items ≡ length w.rings.items) };
}

fn rings(alloc: Global, channels: usize) -> Result<Vec<HeapCircularBuffer<NChar>>, AllocError>
    ensures { IfOk result (λ rings. rings.items ≡ replicate channels (buffer [] 56)) }
{
    let mut rings = Vec::new(alloc);
    for _ in 0..channels {
        rings.push(HeapCircularBuffer::with_capacity(alloc, MAX_OUTSTANDING as usize)?)?;
    }
    Ok(rings)
}

impl Wires {
    /// The empty wires of so many channels. All their room is made here.
    ///
    /// # Errors
    ///
    /// There is no memory for the room.
    pub fn new(alloc: Global, channels: usize) -> Result<Wires, AllocError>
        ensures { IfOk result (λ w. w ≡ empty_between channels) }
    {
        Ok(Wires {
            rings: rings(alloc, channels)?,
            fcts: vec![in alloc; 0; channels]?,
        })
    }

    /// How many channels there are.
    pub fn channels(&self) -> usize
        ensures value { result ≡ length self.now.wires }
        ensures sound { IsBetween self.now }
    {
        self.rings.len()
    }

    /// How many N-Chars are on the channel's wire: 0 to 56.
    pub fn len(&self, channel: Chan) -> usize
        requires { channel < length self.now.wires }
        ensures value { result ≡ length (wire_at self.now channel) }
        ensures most { result ≤ 56 }
    {
        self.rings[channel.number() as usize].len()
    }

    /// The N-Char that arrives next.
    pub fn first(&self, channel: Chan) -> Option<NChar>
        requires { channel < length self.now.wires }
        ensures { result ≡ slice_get (wire_at self.now channel) 0 }
    {
        self.rings[channel.number() as usize].front().copied()
    }

    /// An N-Char is put on the channel's wire, which has to have fewer than 56.
    #[inline(always)]
    pub fn put(&mut self, channel: Chan, character: NChar)
        requires within { channel < length self.old.wires }
        requires room { length (wire_at self.old channel) < 56 }
        ensures { self.new ≡ with_wire self.old channel (wire_at self.old channel ++ character ∷ []) }
    {
        let _ = self.rings[channel.number() as usize].try_push_back(character);
    }

    /// The N-Char that arrives next leaves the wire, if there is one.
    #[inline(always)]
    pub fn take(&mut self, channel: Chan) -> Option<NChar>
        requires { channel < length self.old.wires }
        ensures value { result ≡ slice_get (wire_at self.old channel) 0 }
        ensures after { self.new ≡ with_wire self.old channel (drop 1 (wire_at self.old channel)) }
    {
        self.rings[channel.number() as usize].pop_front()
    }

    /// How many FCTs are under way for the channel.
    pub fn fcts(&self, channel: Chan) -> u8
        requires { channel < length self.now.wires }
        ensures { result ≡ fcts_at self.now channel }
    {
        let index = channel.number() as usize;
        self.fcts[index]
    }

    /// An FCT is sent for the channel, for which at most six are under way (ECSS-E-ST-50-12C, data
    /// link layer: flow control).
    pub fn send_fct(&mut self, channel: Chan)
        requires within { channel < length self.old.wires }
        requires few { fcts_at self.old channel ≤ 6 }
        ensures { self.new ≡ with_fcts self.old channel (fcts_at self.old channel + 1) }
    {
        self.fcts[channel.number() as usize] += 1;
    }

    /// An FCT for the channel arrives at its start. One has to be under way.
    pub fn take_fct(&mut self, channel: Chan)
        requires within { channel < length self.old.wires }
        requires under_way { 0 < fcts_at self.old channel }
        ensures { self.new ≡ with_fcts self.old channel (fcts_at self.old channel - 1) }
    {
        self.fcts[channel.number() as usize] -= 1;
    }
}
