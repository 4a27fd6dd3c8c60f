//! Commands.
ghost use Rattle.std.specs.Prelude.{◌≡◌, ◌≤◌, ◌^◌, ◌<◌, length};
ghost use Rattle.std.specs.Option.{SomeIff};
ghost use Rattle.sw_rmap.specs.CommandView.{IsCommand, command};
ghost use Rattle.sw_rmap.specs.Commands.{read as read_of, number_of};
ghost use Rattle.sw_rmap.specs.Unread.{try_read};
ghost use Rattle.sw_rmap.specs.Replies.{is_answered, path_of, without_leading_zeros};

use crate::checksum::crc;
use crate::instruction::Instruction;
use crate::no_command::NoCommand;
use arrayvec::ArrayVec;
use std::marker::Model;

/// The protocol identifier of RMAP (ECSS-E-ST-50-52C, the fields of a command).
pub const PROTOCOL: u8 = 1;

/// A command's header, which is no reply's and whose fields are in their ranges
/// (ECSS-E-ST-50-52C, the fields of a command).
#[derive(Drop)]
pub struct Command {
    logical: u8,
    instruction: Instruction,
    key: u8,
    reply_address: ArrayVec<u8, 12>,
    initiator: u8,
    transaction: u16,
    address: u64,
    data_length: u32,
}

impl Model for Command {
    ghost use Rattle.sw_rmap.specs.CommandView.{CommandView, IsCommand, command};

    ghost Value = { CommandView };

    ghost view = { λ c. command c.logical c.instruction c.key c.reply_address.items c.initiator c.transaction c.address c.data_length };

    ghost invariant = { λ c. IsCommand (command c.logical c.instruction c.key c.reply_address.items c.initiator c.transaction c.address c.data_length) };
}

impl Command {
    /// The command of these fields (ECSS-E-ST-50-52C, the fields of a command). None where the type
    /// of the instruction is a reply's, the reply address has not as many bytes as the instruction
    /// says, or the address or the data length is beyond 40 or 24 bits.
    pub fn new(
        logical: u8,
        instruction: u8,
        key: u8,
        reply_address: &[u8],
        initiator: u8,
        transaction: u16,
        address: u64,
        data_length: u32,
    ) -> Option<Command>
        ensures { let c = command logical instruction key reply_address.now initiator transaction address data_length in SomeIff result (IsCommand c) c }
    {
        let instruction = Instruction::from_byte(instruction);
        if !instruction.is_command()
            || reply_address.len() != instruction.reply_address_len()
            || address >> 40 != 0
            || data_length >> 24 != 0
        {
            return None;
        }
        Some(Command {
            logical,
            instruction,
            key,
            reply_address: keep(reply_address),
            initiator,
            transaction,
            address,
            data_length,
        })
    }

    /// The command that the bytes of a packet begin with (ECSS-E-ST-50-52C, the fields of a
    /// command). None where they are too few, the protocol is another, the header's CRC is wrong,
    /// or they are a reply.
    #[tactic(auto, using(crate::proofs::Reading::read_is_told))]
    pub fn read(bytes: &[u8]) -> Option<Command>
        ensures { result ≡ read_of bytes.now }
    {
        Command::try_read(bytes).ok()
    }

    /// The same, or why the bytes are no command (ECSS-E-ST-50-52C, the fields of a command).
    ///
    /// # Errors
    ///
    /// The bytes are too few, the protocol is another, the header's CRC is wrong, or they are a
    /// reply; the first of these that is so is told.
    #[tactic(auto, unfolding(crate::specs::Unread::try_read, crate::specs::Commands::fields_of))]
    pub fn try_read(bytes: &[u8]) -> Result<Command, NoCommand>
        ensures { result ≡ try_read bytes.now }
    {
        if bytes.len() < 16 {
            return Err(NoCommand::TooShort);
        }
        let instruction = Instruction::from_byte(bytes[2]);
        let path = instruction.reply_address_len();
        if bytes.len() < 16 + path {
            return Err(NoCommand::TooShort);
        }
        if bytes[1] != PROTOCOL {
            return Err(NoCommand::OtherProtocol);
        }
        let back = &bytes[4 + path..];
        if crc(&bytes[..15 + path]) != back[11] {
            return Err(NoCommand::WrongCrc);
        }
        if !instruction.is_command() {
            return Err(NoCommand::IsReply);
        }
        Ok(Command {
            logical: bytes[0],
            instruction,
            key: bytes[3],
            reply_address: keep(&bytes[4..4 + path]),
            initiator: back[0],
            transaction: number(&back[1..3]) as u16,
            address: number(&back[3..8]),
            data_length: number(&back[8..11]) as u32,
        })
    }

    /// The target logical address.
    pub fn logical(&self) -> u8
        ensures { result ≡ self.now.logical }
    {
        self.logical
    }

    /// The instruction byte (ECSS-E-ST-50-52C, the instruction field of a command).
    pub fn instruction(&self) -> u8
        ensures value { result ≡ self.now.instruction }
        ensures command { IsCommand self.now }
    {
        self.instruction.byte()
    }

    /// The key.
    pub fn key(&self) -> u8
        ensures { result ≡ self.now.key }
    {
        self.key
    }

    /// The reply address: 0, 4, 8 or 12 bytes (ECSS-E-ST-50-52C, the reply address field of a
    /// command).
    pub fn reply_address(&self) -> &[u8]
        ensures { result.now ≡ self.now.reply_address }
    {
        self.reply_address.as_slice()
    }

    /// The initiator logical address.
    pub fn initiator(&self) -> u8
        ensures { result ≡ self.now.initiator }
    {
        self.initiator
    }

    /// The transaction identifier.
    pub fn transaction(&self) -> u16
        ensures { result ≡ self.now.transaction }
    {
        self.transaction
    }

    /// The address with its extension: 40 bits.
    pub fn address(&self) -> u64
        ensures value { result ≡ self.now.address }
        ensures small { result < 2 ^ 40 }
    {
        self.address
    }

    /// The data length: 24 bits.
    pub fn length(&self) -> u32
        ensures value { result ≡ self.now.data_length }
        ensures small { result < 2 ^ 24 }
    {
        self.data_length
    }

    /// The instruction with its bits (ECSS-E-ST-50-52C, the instruction field of a command).
    pub fn bits(&self) -> Instruction
        ensures value { result ≡ self.now.instruction }
    {
        self.instruction
    }

    /// Whether the command gets a reply: it wants one, and its reply address is not of zeros alone.
    #[tactic(auto, using(crate::proofs::Added::leads_nowhere_else))]
    pub fn is_answered(&self) -> bool
        ensures { result ≡ is_answered self.now }
    {
        if !self.instruction.wants_reply() {
            return false;
        }
        if self.reply_address().is_empty() {
            return true;
        }
        !self.path().is_empty()
    }

    /// The path back, which the reply begins with, before the initiator logical address: the reply
    /// address without its leading zeros (ECSS-E-ST-50-52C, the reply address field of a command).
    pub fn path(&self) -> &[u8]
        ensures { result.now ≡ path_of self.now }
    {
        without_leading_zeros(self.reply_address())
    }
}

fn keep(reply_address: &[u8]) -> ArrayVec<u8, 12>
    requires { length reply_address.now ≤ 12 }
    ensures { result.items ≡ reply_address.now }
{
    let mut bytes = ArrayVec::new();
    bytes.try_extend_from_slice(reply_address).unwrap();
    bytes
}

/// The number that the bytes write, the highest first.
fn number(bytes: &[u8]) -> u64
    requires { length bytes.now ≤ 8 }
    ensures value { result ≡ number_of bytes.now }
    ensures fits { result < 256 ^ length bytes.now }
{
    let mut number = 0;
    for byte in bytes {
        number = 256 * number + u64::from(*byte);
    }
    number
}

fn without_leading_zeros(bytes: &[u8]) -> &[u8]
    ensures { result.now ≡ without_leading_zeros bytes.now }
{
    let mut rest = bytes;
    while let [0, after @ ..] = rest {
        rest = after;
    }
    rest
}
