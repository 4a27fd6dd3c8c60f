//! What is asked for, as numbers and bytes.
ghost use Rattle.std.specs.Prelude.{◌≡◌, option_map};
ghost use Rattle.sw_text.specs.Gives.{Gives};
ghost use Rattle.sw_app_rmap.specs.Orders.{action_of, action_view, data_of, is_write, length_of, order_of, order_view, transaction_of, wants_reply};

use crate::fault::RmapFault;
use crate::request::{Access, Request};
use crate::words::number_of;
use std::alloc::Global;
use sw_file::MEMORY_END;
use sw_load::pairs_of;
use sw_text::OrMemory;

/// The greatest data length: 24 bits.
const MAX_LENGTH: u64 = 16_777_215;

/// The greatest transaction identifier: 16 bits.
const MAX_TRANSACTION: u64 = 65_535;

/// What a command does at its address.
#[derive(Drop)]
pub(crate) enum Action {
    /// It reads so many bytes.
    Read(u32),
    /// It writes these bytes, and is answered or not.
    Write(Vec<u8>, bool),
}

/// A command that is asked for.
#[derive(Drop)]
pub(crate) struct RmapOrder {
    pub(crate) address: u64,
    pub(crate) action: Action,
    pub(crate) transaction: u16,
}

impl Action {
    pub(crate) fn is_write(&self) -> bool
        ensures { result ≡ is_write (action_view self.now) }
    {
        matches!(self, Action::Write(..))
    }

    pub(crate) fn wants_reply(&self) -> bool
        ensures { result ≡ wants_reply (action_view self.now) }
    {
        match self {
            Action::Read(_) => true,
            Action::Write(_, acknowledged) => *acknowledged,
        }
    }

    /// How many bytes are read or written.
    pub(crate) fn length(&self) -> u64
        ensures { result ≡ length_of (action_view self.now) }
    {
        match self {
            Action::Read(count) => u64::from(*count),
            Action::Write(bytes, _) => bytes.len() as u64,
        }
    }

    /// The data that the command carries.
    pub(crate) fn data(&self) -> &[u8]
        ensures { result.now ≡ data_of (action_view self.now) }
    {
        match self {
            Action::Read(_) => &[],
            Action::Write(bytes, _) => bytes,
        }
    }
}

/// What stands for the action: a length of at most 24 bits, or 1 to 4,096 bytes as hexadecimal pairs.
#[tactic(auto, unfolding(crate::specs::Orders::action_of))]
fn action_of(alloc: Global, access: &Access<'_>) -> Result<Action, OrMemory<RmapFault>>
    ensures { Gives action_view result (action_of access.now) }
{
    match access {
        Access::Read { length } => match number_of(length, MAX_LENGTH) {
            Some(count) => Ok(Action::Read(count as u32)),
            None => Err(OrMemory::Fault(RmapFault::BadLength)),
        },
        Access::Write { data, acknowledged } => match pairs_of(alloc, data.as_bytes())? {
            Some(bytes) => Ok(Action::Write(bytes, *acknowledged)),
            None => Err(OrMemory::Fault(RmapFault::BadData)),
        },
    }
}

/// The transaction identifier; 0 where none is given.
fn transaction_of(word: Option<&str>) -> Option<u16>
    ensures { result ≡ transaction_of (option_map (λ w. w.now) word.entry) }
{
    let Some(word) = word else {
        return Some(0);
    };
    let Some(transaction) = number_of(word, MAX_TRANSACTION) else {
        return None;
    };
    Some(transaction as u16)
}

/// What the words ask for: the address is read first, then the length or the data, then the transaction identifier.
///
/// # Errors
///
/// `Fault`: the first word that is none such. `Memory`: there is no memory for the data.
#[tactic(auto, unfolding(crate::specs::Orders::order_of))]
pub(crate) fn order_of(
    alloc: Global,
    request: &Request<'_>,
) -> Result<RmapOrder, OrMemory<RmapFault>>
    ensures { Gives order_view result (order_of request.now) }
{
    let Some(address) = number_of(request.address, MEMORY_END - 1) else {
        return Err(OrMemory::Fault(RmapFault::BadAddress));
    };
    let action = action_of(alloc, &request.access)?;
    let Some(transaction) = transaction_of(request.transaction) else {
        return Err(OrMemory::Fault(RmapFault::BadTransaction));
    };
    Ok(RmapOrder {
        address,
        action,
        transaction,
    })
}
