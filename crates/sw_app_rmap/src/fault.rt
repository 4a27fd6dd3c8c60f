//! Why there is no packet.
ghost use Rattle.std.specs.Prelude.{◌≡◌};
ghost use Rattle.sw_app_rmap.specs.EntryTexts.{fault_words};

/// Why a flow has no such packet.
#[derive(Clone, Copy)]
pub enum RmapFault {
    /// No declared flow has that name.
    UnknownFlow,
    /// The word is no number of at most 40 bits.
    BadAddress,
    /// The word is no number of at most 24 bits.
    BadLength,
    /// The word is not 1 to 4,096 hexadecimal pairs.
    BadData,
    /// The word is no number of at most 16 bits.
    BadTransaction,
    /// The flow ends at a node that is no RMAP target.
    NoTarget,
    /// The flow is limited in its unanswered commands, and the command asks for no reply.
    NotAnswered,
    /// The flow has no replies, and the command asks for one.
    NoReply,
    /// The target's window has not all that is read or written.
    OutsideWindow,
    /// The address bytes that are left are not what the command begins with.
    WrongLeft,
    /// The cargo has more bytes than a load can say.
    TooLong,
}

/// The code and the name of a fault.
pub fn fault_words(fault: RmapFault) -> &'static str
    ensures { result.now ≡ fault_words fault }
{
    match fault {
        RmapFault::UnknownFlow => "F7 UnknownName argument",
        RmapFault::BadAddress => "R1 BadAddress",
        RmapFault::BadLength => "R2 BadLength",
        RmapFault::BadData => "R3 BadData",
        RmapFault::BadTransaction => "R4 BadTransaction",
        RmapFault::NoTarget => "R5 NoTarget",
        RmapFault::NotAnswered => "R10 NotAnswered",
        RmapFault::NoReply => "R6 NoReply",
        RmapFault::OutsideWindow => "R7 OutsideWindow",
        RmapFault::WrongLeft => "R8 WrongLeft",
        RmapFault::TooLong => "R9 TooLong",
    }
}
