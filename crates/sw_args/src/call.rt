//! What the words come to: a call, or why there is none.
ghost use Rattle.std.specs.Prelude.{◌≡◌};
ghost use Rattle.sw_args.specs.declared.call.WordsFault.TheVariants.{Memory};

use std::alloc::AllocError;
use sw_text::statuses::{GOOD, NO_ROOM, REFUSED};
use thiserror::Error;

/// What the words ask for, with the values as they were written; `json`: the answer is to be one object of JSON.
#[derive(Clone, Copy)]
pub enum Call<'a> {
    /// The places of a flow of a network file.
    Route {
        file: &'a str,
        flow: &'a str,
        json: bool,
    },
    /// The verdict on a network file.
    Decide {
        file: &'a str,
        json: bool,
    },
    /// Whether a certificate is accepted for a network file.
    Check {
        file: &'a str,
        certificate: &'a str,
        json: bool,
    },
    /// How many parts a network file has, and the verdict on it.
    Report {
        file: &'a str,
        json: bool,
    },
    /// What comes of a schedule of steps on a network file.
    Replay {
        file: &'a str,
        schedule: &'a str,
        json: bool,
    },
    /// What comes of a load of packets on a network file, by so many threads and in at most so many steps; in which file its steps are to be
    /// written, and whether a summary is wanted.
    Run {
        file: &'a str,
        load: &'a str,
        workers: u32,
        limit: u32,
        schedule: Option<&'a str>,
        summary: bool,
        json: bool,
    },
    /// A network file of version 1 as one of version 2.
    Migrate {
        file: &'a str,
    },
    /// Why a network can lock up, or that it never does; with all flows of a step, or six and how many more there are.
    Explain {
        file: &'a str,
        all: bool,
        json: bool,
    },
    /// A drawing of a network file: with the places of a flow, with the shortest cycle, with the channels' numbers.
    Draw {
        file: &'a str,
        flow: Option<&'a str>,
        cycle: bool,
        numbers: bool,
    },
    /// The entry of a load for an RMAP command of a flow: what it does (`read` or `write`), from which address on, how many bytes or
    /// which ones, whether it asks for no reply, and its transaction identifier.
    Rmap {
        file: &'a str,
        flow: &'a str,
        action: &'a str,
        address: &'a str,
        value: &'a str,
        unacknowledged: bool,
        transaction: Option<&'a str>,
    },
    /// Which single change makes a network free; where none does, if asked for, which pair of them.
    Mend {
        file: &'a str,
        pairs: bool,
        json: bool,
    },
    /// How far the premises of a free network bend.
    Margin {
        file: &'a str,
        json: bool,
    },
    /// A schedule that locks a network up, by so many tries, the first with this number.
    Witness {
        file: &'a str,
        tries: u32,
        seed: u32,
    },
    /// The verdicts on many network files: of those alone that are not free, with certificates kept in a directory.
    Audit {
        json: bool,
        quiet: bool,
        certificates: Option<&'a str>,
    },
    /// A sample network file, by its name.
    Init {
        name: Option<&'a str>,
    },
}

/// What the words ask for: a call, the network files that it names, and what is told on standard error.
#[derive(Drop)]
pub struct Asked<'a> {
    /// What is to be done.
    pub call: Call<'a>,
    /// The network files, in the order of the words: one, but several of `audit`, and none of `init`.
    pub files: Vec<&'a str>,
    /// The word behind `--hints`; none where it is left out.
    pub hints: Option<&'a str>,
    /// The word behind `--notes`; none where it is left out.
    pub notes: Option<&'a str>,
    /// Whether each fault is told that can be told.
    pub all_faults: bool,
}

/// Why the words give no call, with the text to print.
#[derive(Debug, Drop, Error)]
pub enum WordsFault {
    /// Help was asked for: the text goes to standard output.
    #[error("{0}")]
    Help(String),
    /// The words are refused: the text goes to standard error.
    #[error("{0}")]
    Refused(String),
    /// A growth was refused.
    #[error("out of memory")]
    Memory,
}

impl WordsFault {
    ghost use Rattle.sw_args.specs.CommandLine.{words_status};

    /// The status that the program exits with.
    pub fn status(&self) -> u8
        ensures { result ≡ words_status self.now }
    {
        match self {
            WordsFault::Help(_) => GOOD,
            WordsFault::Refused(_) => REFUSED,
            WordsFault::Memory => NO_ROOM,
        }
    }
}

impl From<AllocError> for WordsFault {
    ghost from_gives = { λ _ e. e ≡ Memory };

    fn from(_error: AllocError) -> WordsFault {
        WordsFault::Memory
    }
}
