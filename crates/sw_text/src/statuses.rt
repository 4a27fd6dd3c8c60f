//! The statuses that the program exits with.

/// The answer is the good one: routed, free, accepted, reported, replayed without a lock-up, drained.
pub const GOOD: u8 = 0;

/// The answer is the bad one: misrouted, cyclic, a certificate refused, a step of a schedule refused.
pub const BAD: u8 = 1;

/// The words give no call.
pub const REFUSED: u8 = 2;

/// A text has a fault.
pub const FAULTY: u8 = 3;

/// The network is locked up, or a run is stuck.
pub const LOCKED_UP: u8 = 4;

/// There was no memory, or no room in a run's journal.
pub const NO_ROOM: u8 = 5;

/// A read or a write failed.
pub const UNREAD_OR_UNWRITTEN: u8 = 6;
