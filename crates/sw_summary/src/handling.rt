//! What becomes of a packet at a target.
ghost use Rattle.std.specs.Prelude.{◌≡◌};
ghost use Rattle.sw_summary.specs.Counts.{handled_as};
ghost use Rattle.sw_summary.specs.Handlings.{handling_index, handling_of, read_handling, reason_text, unread_handling};

use sw_char::Packet;
use sw_rmap::{Command, NoCommand};

/// What becomes of a packet at a target: it is answered, or why it is not.
#[derive(Clone, Copy)]
pub(crate) enum Handling {
    /// It is a command that is answered, whatever the status is.
    Answered,
    /// Its bytes are too few for a header.
    TooShort,
    /// The protocol is not RMAP.
    OtherProtocol,
    /// The header's CRC is wrong.
    WrongCrc,
    /// It is a reply.
    IsReply,
    /// It is a command that asks for no reply.
    NotAsked,
    /// It is a command whose reply address leads nowhere.
    NoWay,
}

impl Handling {
    fn index(self) -> u8
        ensures { result ≡ handling_index self }
    {
        match self {
            Handling::Answered => 0,
            Handling::TooShort => 1,
            Handling::OtherProtocol => 2,
            Handling::WrongCrc => 3,
            Handling::IsReply => 4,
            Handling::NotAsked => 5,
            Handling::NoWay => 6,
        }
    }

    /// The words for it.
    pub(crate) fn reason(self) -> &'static str
        ensures { result.now ≡ reason_text self }
    {
        match self {
            Handling::Answered => "answered",
            Handling::TooShort => "too short",
            Handling::OtherProtocol => "another protocol",
            Handling::WrongCrc => "header CRC",
            Handling::IsReply => "a reply",
            Handling::NotAsked => "no reply is asked for",
            Handling::NoWay => "the reply address is of zeros",
        }
    }
}

/// The same of bytes that are no command.
fn unread_handling(why: NoCommand) -> Handling
    ensures { result ≡ unread_handling why }
{
    match why {
        NoCommand::TooShort => Handling::TooShort,
        NoCommand::OtherProtocol => Handling::OtherProtocol,
        NoCommand::WrongCrc => Handling::WrongCrc,
        NoCommand::IsReply => Handling::IsReply,
    }
}

/// Whether the command is answered.
fn read_handling(command: &Command) -> Handling
    ensures { result ≡ read_handling command.now }
{
    if command.is_answered() {
        Handling::Answered
    } else if command.bits().wants_reply() {
        Handling::NoWay
    } else {
        Handling::NotAsked
    }
}

/// What becomes of a packet of these bytes.
#[tactic(auto, unfolding(crate::specs::Handlings::handling_of))]
pub(crate) fn handling_of(bytes: &[u8]) -> Handling
    ensures { result ≡ handling_of bytes.now }
{
    match Command::try_read(bytes) {
        Ok(command) => read_handling(&command),
        Err(why) => unread_handling(why),
    }
}

/// Of how many of the packets that becomes.
pub(crate) fn handled_as(handling: Handling, packets: &[Packet]) -> usize
    ensures { result ≡ handled_as handling packets.now }
{
    let mut count = 0;
    for packet in packets {
        if handling_of(packet.bytes.as_slice()).index() != handling.index() {
            continue;
        }
        count += 1;
    }
    count
}
