//! Where an audit takes its texts from, and where it puts certificates.
ghost use Rattle.std.specs.Prelude.{ℕ, Bool, List};
ghost use Rattle.sw_json_verdicts.specs.Stores.{Given, given_of};

use std::alloc::Global;

/// What a path gives.
#[derive(Drop)]
pub enum AuditInput {
    /// All bytes of a text.
    Whole(Vec<u8>),
    /// A text that has more bytes than a text may have.
    TooLong,
    /// It can't be read.
    Unread,
    /// There is no memory for its text.
    NoMemory,
}

/// Where an audit takes its texts from, and where it puts certificates. Both are asked for by several threads at once.
pub trait Storage {
    ghost gives: { Self → List ℕ → Given → Type 0 };

    ghost keeps: { Self → List ℕ → List ℕ → Bool → Type 0 };

    /// What the path gives.
    fn read(&self, alloc: Global, path: &str) -> AuditInput
        ensures { gives self.now path.now (given_of result) };

    /// Puts a certificate under a name, and answers whether all of it stands there.
    fn keep(&self, alloc: Global, name: &str, certificate: &[u8]) -> bool
        ensures { keeps self.now name.now certificate.now result };
}
