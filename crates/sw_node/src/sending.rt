//! A packet that a node sends, character by character.
ghost use Rattle.std.specs.Prelude.{◌≡◌, ◌==◌, ◌<◌, ◌≤◌, ◌+◌, ◌++◌, [], IfOk, OnOk, drop, length, map, slice_get};
ghost use Rattle.sw_char.specs.declared.nchar.NChar.TheVariants.{Data};
ghost use Rattle.sw_char.specs.Packets.{marker_of};
ghost use Rattle.sw_node.specs.Node.{packet_chars};

use std::alloc::{AllocError, Global};
use std::marker::Model;
use sw_char::{End, NChar};

/// The characters of a packet that are still to be sent.
#[derive(Drop)]
pub(crate) struct Sending {
    bytes: Vec<u8>,
    end: End,
    /// how many characters, of the bytes and the marker, were sent
    sent: usize,
}

impl Model for Sending {
    ghost use Rattle.std.specs.Prelude.{List, drop, length, ◌≤◌, ◌+◌};
    ghost use Rattle.sw_char.specs.declared.nchar.NChar.{NChar as Char};
    ghost use Rattle.sw_node.specs.Node.{packet_chars};

    ghost Value = { List Char };

    ghost view = { λ s. drop s.sent (packet_chars s.bytes.items s.end) };

    ghost invariant = { λ s. s.sent ≤ length s.bytes.items + 1 };
}

fn marker(end: End) -> NChar
    ensures { result ≡ marker_of end }
{
    match end {
        End::Eop => NChar::Eop,
        End::Eep => NChar::Eep,
    }
}

/// Puts the bytes behind the characters.
pub(crate) fn push_data(chars: &mut Vec<NChar>, bytes: &[u8]) -> Result<(), AllocError>
    ensures { OnOk result (chars.new.items ≡ chars.old.items ++ map Data bytes.now) }
{
    for byte in bytes {
        chars.push(NChar::Data(*byte))?;
    }
    Ok(())
}

/// Puts the bytes and the marker behind the characters.
pub(crate) fn push_chars(chars: &mut Vec<NChar>, bytes: &[u8], end: End) -> Result<(), AllocError>
    ensures { OnOk result (chars.new.items ≡ chars.old.items ++ packet_chars bytes.now end) }
{
    push_data(chars, bytes)?;
    chars.push(marker(end))?;
    Ok(())
}

impl Sending {
    /// Nothing is to be sent.
    pub(crate) fn nothing(alloc: Global) -> Sending
        ensures { result ≡ [] }
    {
        Sending {
            bytes: Vec::new(alloc),
            end: End::Eop,
            sent: 1,
        }
    }

    /// A packet of which nothing was sent yet.
    pub(crate) fn packet(bytes: Vec<u8>, end: End) -> Sending
        ensures { result ≡ packet_chars bytes.items end }
    {
        Sending {
            bytes,
            end,
            sent: 0,
        }
    }

    /// How many characters are still to be sent.
    pub(crate) fn len(&self) -> usize
        ensures { result ≡ length self.now }
    {
        self.bytes.len() + 1 - self.sent
    }

    pub(crate) fn is_empty(&self) -> bool
        ensures { result ≡ (length self.now == 0) }
    {
        self.sent > self.bytes.len()
    }

    /// A copy of the characters that are still to be sent.
    pub(crate) fn chars(&self, alloc: Global) -> Result<Vec<NChar>, AllocError>
        ensures { IfOk result (λ chars. chars.items ≡ self.now) }
    {
        let mut chars = Vec::new(alloc);
        if self.is_empty() {
            return Ok(chars);
        }
        push_chars(&mut chars, &self.bytes[self.sent..], self.end)?;
        Ok(chars)
    }

    /// The character that is sent next.
    pub(crate) fn first(&self) -> Option<NChar>
        ensures { result ≡ slice_get self.now 0 }
    {
        if self.sent > self.bytes.len() {
            return None;
        }
        match self.bytes.get(self.sent) {
            Some(byte) => Some(NChar::Data(*byte)),
            None => Some(marker(self.end)),
        }
    }

    /// That character was sent.
    pub(crate) fn advance(&mut self)
        requires { 0 < length self.old }
        ensures { self.new ≡ drop 1 self.old }
    {
        self.sent += 1;
    }
}
