//! What a target says of a command.
ghost use Rattle.std.specs.Prelude.{◌≡◌};
ghost use Rattle.sw_rmap.specs.Answers.{is_success};

/// The status in a reply (ECSS-E-ST-50-52C, error and status codes): the number of a variant is its code.
#[derive(Clone, Copy)]
pub(crate) enum Status {
    /// The command was carried out.
    Success = 0,
    /// The packet type is reserved, or the command code is unused.
    UnusedCode = 2,
    /// The key is not the target's.
    InvalidKey = 3,
    /// The data do not agree with their CRC.
    InvalidDataCrc = 4,
    /// The packet ended before its data did.
    EarlyEop = 5,
    /// The packet went on after its data.
    TooMuchData = 6,
    /// The packet ended in error.
    Eep = 7,
    /// The target does not do this, or not at these addresses.
    NotAuthorised = 10,
    /// The target logical address is not the target's.
    InvalidTarget = 12,
}

impl Status {
    pub(crate) fn is_success(self) -> bool
        ensures { result ≡ is_success self }
    {
        matches!(self, Status::Success)
    }
}
