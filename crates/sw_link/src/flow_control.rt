//! The numbers of flow control (ECSS-E-ST-50-12C, data link layer: flow control).

/// How many N-Chars an FCT asks for.
pub const ASKED_BY_FCT: u8 = 8;

/// How many N-Chars may be asked for and not have arrived at most: as many as seven FCTs ask for.
pub const MAX_OUTSTANDING: u8 = 56;

/// How many N-Chars may be outstanding at most where one more FCT leaves.
pub const MAX_BEFORE_FCT: u8 = 48;
