//! Bytes as a network file writes them.
use crate::teller::Text;
use std::alloc::Global;
use std::fmt::Write;
use sw_topo::limits::FIRST_LOGICAL;

/// How a file writes its numbers.
#[derive(Clone, Copy)]
pub(crate) enum Digits {
    Decimal,
    Hexadecimal,
}

impl Digits {
    /// As this text writes some of its numbers, at least.
    pub(crate) fn in_text(text: &[u8]) -> Digits {
        if text.windows(2).any(|marks| marks.starts_with(b"0x")) {
            Digits::Hexadecimal
        } else {
            Digits::Decimal
        }
    }

    /// A byte of a packet: a port is told by its decimal number, as switches have it.
    pub(crate) fn byte(self, alloc: Global, byte: u8) -> Text {
        match self {
            Digits::Hexadecimal if u64::from(byte) >= FIRST_LOGICAL => {
                format!(in alloc; "0x{byte:02X}")
            }
            _ => format!(in alloc; "{byte}"),
        }
    }

    /// Bytes of a packet, each behind a space.
    pub(crate) fn bytes(self, alloc: Global, bytes: &[u8]) -> Text {
        let mut text = String::new(alloc);
        for byte in bytes {
            let byte = self.byte(alloc, *byte)?;
            write!(text, " {byte}")?;
        }
        Ok(text)
    }
}
