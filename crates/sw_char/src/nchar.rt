//! N-Chars and end markers.

/// A normal character (N-Char): the characters that carry packets (ECSS-E-ST-50-12C, data link layer: normal characters).
#[derive(Clone, Copy, Debug, PartialEq, Eq)]
pub enum NChar {
    /// A data character of 8 bits.
    Data(u8),
    /// The normal end of a packet.
    Eop,
    /// The end of a packet that ended in error.
    Eep,
}

/// How a packet ends: the end markers (ECSS-E-ST-50-12C, data link layer: normal characters).
#[derive(Clone, Copy, PartialEq, Eq)]
pub enum End {
    /// The normal end of a packet.
    Eop,
    /// The end of a packet that ended in error.
    Eep,
}
