//! The bits of an instruction.
ghost use Rattle.std.specs.Prelude.{◌≡◌, ◌==◌, ◌≤◌, ℕ, not};
ghost use Rattle.sw_rmap.specs.Instruction as bits;

use std::marker::Model;

/// The instruction of a command or of a reply (ECSS-E-ST-50-52C, the instruction field of a
/// command and of a reply): one byte, of which bit 7 is the highest.
#[derive(Clone, Copy)]
pub struct Instruction {
    byte: u8,
}

impl Model for Instruction {
    ghost Value = { ℕ };

    ghost view = { λ i. i.byte };

    ghost inverse = { λ n. record { byte = n } };
}

impl Instruction {
    /// The instruction that the byte stands for (ECSS-E-ST-50-52C, the instruction field of a
    /// command); each byte is one.
    pub fn from_byte(byte: u8) -> Instruction
        ensures { result ≡ byte }
    {
        Instruction { byte }
    }

    /// The instruction of a command that writes or reads at rising addresses, with a reply or
    /// without (ECSS-E-ST-50-52C, the instruction fields of write and read commands). Its reply
    /// address has so many units of four bytes.
    pub fn incrementing(write: bool, reply: bool, units: usize) -> Instruction
        requires { units ≤ 3 }
        ensures { result ≡ bits.incrementing write reply units }
    {
        let write = if write { 0x20 } else { 0 };
        let reply = if reply { 0x08 } else { 0 };
        Instruction::from_byte(0x40 + write + reply + 0x04 + units as u8)
    }

    /// The byte (ECSS-E-ST-50-52C, the instruction field of a command).
    pub fn byte(self) -> u8
        ensures { result ≡ self }
    {
        self.byte
    }

    /// Whether this is no reply (ECSS-E-ST-50-52C, the packet type in the instruction field): a
    /// reserved packet type is none either.
    pub fn is_command(self) -> bool
        ensures { result ≡ not (bits.packet_type self == 0) }
    {
        self.byte >> 6 != 0
    }

    /// Whether this code is one that the standard uses for a command (ECSS-E-ST-50-52C, the command
    /// codes).
    pub fn is_known(self) -> bool
        ensures { result ≡ bits.is_known self }
    {
        let code = self.code();
        self.byte >> 6 == 1
            && (self.is_write() || code == 2 || code == 3 || self.is_read_modify_write())
    }

    /// Whether data are written (ECSS-E-ST-50-52C, the write bit of the instruction field).
    pub fn is_write(self) -> bool
        ensures { result ≡ bits.is_write self }
    {
        self.byte >> 5 & 1 == 1
    }

    /// Whether data are read, modified and written back (ECSS-E-ST-50-52C, the read-modify-write
    /// command).
    pub fn is_read_modify_write(self) -> bool
        ensures { result ≡ bits.is_read_modify_write self }
    {
        self.code() == 7
    }

    /// Whether a reply is wanted (ECSS-E-ST-50-52C, the reply bit of the instruction field).
    pub fn wants_reply(self) -> bool
        ensures { result ≡ bits.wants_reply self }
    {
        self.byte >> 3 & 1 == 1
    }

    /// Whether the data lie at rising addresses, not all at one (ECSS-E-ST-50-52C, the increment
    /// bit of the instruction field).
    pub fn increments(self) -> bool
        ensures { result ≡ bits.increments self }
    {
        self.byte >> 2 & 1 == 1
    }

    /// How many bytes of reply address the command has: 0, 4, 8 or 12 (ECSS-E-ST-50-52C, the reply
    /// address length in the instruction field).
    pub fn reply_address_len(self) -> usize
        ensures value { result ≡ bits.reply_address_len self }
        ensures few { result ≤ 12 }
    {
        4 * usize::from(self.byte & 3)
    }

    /// The byte of the reply, which has the same bits but for the packet type (ECSS-E-ST-50-52C, the
    /// instruction field of a reply).
    pub fn of_reply(self) -> u8
        ensures { result ≡ bits.of_reply self }
    {
        self.byte & 0x3F
    }

    fn code(self) -> u8
        ensures { result ≡ bits.command_code self }
    {
        self.byte >> 2 & 15
    }
}
