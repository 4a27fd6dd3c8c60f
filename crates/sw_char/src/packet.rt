//! Packets, and the one way to cut characters into them.
ghost use Rattle.std.specs.Prelude.{◌≡◌, ℕ, ◌+◌, List, length, IfOk};
ghost use Rattle.sw_char.specs.declared.nchar.NChar.{NChar as Char};
ghost use Rattle.sw_char.specs.Packets.{IsCut, HasOneCut};

use crate::nchar::{End, NChar};
use std::alloc::{AllocError, Global};
use std::marker::Model;
use std::mem;

/// A packet (ECSS-E-ST-50-12C, network layer: packets): its bytes, and how it ends.
#[derive(Drop)]
pub struct Packet {
    /// The address bytes, and then the cargo.
    pub bytes: Vec<u8>,
    /// The end marker.
    pub end: End,
}

impl Model for Packet {
    ghost use Rattle.sw_char.specs.PacketView.{PacketView};

    ghost Value = { PacketView };

    ghost view = { λ p. record { bytes = p.bytes.items; end = p.end } };
}

/// The whole packets of these characters (ECSS-E-ST-50-12C, network layer: packets), and where the
/// unfinished rest begins: the index after the last marker.
///
/// # Errors
///
/// There is no memory for the packets.
pub fn packets(alloc: Global, chars: &[NChar]) -> Result<(Vec<Packet>, usize), AllocError>
    ensures { IfOk result (λ found. (rest : List ℕ) × IsCut chars.now found.0.items rest × (found.1 + length rest ≡ length chars.now)) }
{
    let mut whole = Vec::new(alloc);
    let mut bytes = Vec::new(alloc);
    let mut start = 0;
    for (i, char) in chars.iter().enumerate() {
        let end = match char {
            NChar::Data(byte) => {
                bytes.push(*byte)?;
                continue;
            }
            NChar::Eop => End::Eop,
            NChar::Eep => End::Eep,
        };
        let bytes = mem::replace(&mut bytes, Vec::new(alloc));
        whole.push(Packet { bytes, end })?;
        start = i + 1;
    }
    Ok((whole, start))
}

/// Characters are cut into packets in one way.
pub fn cut_is_unique()
    ensures { (l : List Char) → HasOneCut l }
{}
