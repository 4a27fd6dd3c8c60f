//! Why a text is no network, or no load.
ghost use Rattle.std.specs.Prelude.{◌≡◌};
ghost use Rattle.sw_text.specs.declared.fault.OrMemory.TheVariants.{Memory};

use crate::keys::{Key, Section};
use crate::names::Name;
use std::alloc::{AllocError, AllocFailed};
use sw_topo::TopoFault;
use thiserror::Error;

/// What is wrong at a key that the table may have.
#[derive(Clone, Copy, Debug)]
pub enum KeyFault {
    /// A key that the table has to have is not there.
    MissingKey,
    /// The value is of another TOML type.
    WrongType,
    /// The value, or the length of a list or a text, is not one of those allowed.
    OutOfRange,
    /// The name is another entry's already.
    DuplicateName,
    /// Nothing suitable has that name.
    UnknownName,
}

/// The first fault of a text.
#[derive(Debug, Drop)]
pub enum TextFault {
    /// It is no TOML.
    Syntax,
    /// A table has a key that it may not have.
    UnknownKey(Section, Name),
    /// A key is missing, or what stands there is wrong.
    Key(KeyFault, Section, Key),
    /// Nodes and switches are wrongly joined.
    Topology(TopoFault),
    /// Of this switch, this entry of its table is for an address that one before it is for.
    DuplicateRoute(usize, usize),
    /// The replies of this flow cannot come back.
    ReplyShape(usize),
    /// This entry of a load is no packet of its flow.
    NotInFlow(usize),
}

/// A fault, or want of memory.
#[derive(Debug, Drop, Error)]
pub enum OrMemory<F> {
    /// What is wrong.
    #[error("there is a fault")]
    Fault(F),
    /// There is no memory for it: this tells nothing of what was read.
    #[error("out of memory")]
    Memory,
}

impl<F> From<AllocError> for OrMemory<F> {
    ghost from_gives = { λ _ e. e ≡ Memory };

    fn from(_error: AllocError) -> OrMemory<F> {
        OrMemory::Memory
    }
}

impl<F, T: Drop> From<AllocFailed<T>> for OrMemory<F> {
    ghost from_gives = { λ _ e. e ≡ Memory };

    fn from(_error: AllocFailed<T>) -> OrMemory<F> {
        OrMemory::Memory
    }
}

/// The first fault of a text, or want of memory.
pub type FileFault = OrMemory<TextFault>;
