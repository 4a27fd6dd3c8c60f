//! Bytes that are no command.

/// Why the bytes of a packet are no command (ECSS-E-ST-50-52C, the fields of a command).
#[derive(Clone, Copy, Debug)]
pub enum NoCommand {
    /// They are too few for a header.
    TooShort,
    /// The protocol is not RMAP.
    OtherProtocol,
    /// The header's CRC is wrong.
    WrongCrc,
    /// They are a reply.
    IsReply,
}
