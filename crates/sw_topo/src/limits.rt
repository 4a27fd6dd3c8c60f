//! How much a network may have, and with it all that is read, made and numbered: the ports, addresses and buffers of its parts too.

/// How many nodes there may be.
pub const MAX_NODES: u16 = 1024;

/// How many switches there may be.
pub const MAX_SWITCHES: u16 = 512;

/// How many links there may be.
pub const MAX_LINKS: u16 = 1024;

/// How many channels there may be: two of each link.
pub const MAX_CHANNELS: u32 = 2048;

/// How many flows there may be.
pub const MAX_FLOWS: u16 = 4096;

/// How many ways there may be through a network: each flow's, and that of its replies.
pub const MAX_WAYS: u32 = 8192;

/// How many bytes the address of a flow may have.
pub const MAX_ADDRESS: u8 = 32;

/// The first logical address, and the least number that no port has (ECSS-E-ST-50-12C, network layer: packet addressing).
pub const FIRST_LOGICAL: u64 = 32;

/// The last logical address (ECSS-E-ST-50-12C, network layer: packet addressing).
pub const LAST_LOGICAL: u64 = 254;

/// How many path addresses a reply may go by (ECSS-E-ST-50-52C, the reply address field of a command).
pub const MAX_REPLY_PATH: usize = 12;

/// How many ports a switch has (ECSS-E-ST-50-12C, network layer: routing switches).
pub const PORTS: u8 = 32;

/// The greatest number of a port, as the number that a file gives.
pub const MAX_PORT: u64 = 31;

/// How many characters the receive buffer at an end of a link holds at least: as many as one FCT asks for.
pub const MIN_BUFFER: u64 = 8;

/// How many characters the receive buffer at an end of a link may hold.
pub const MAX_BUFFER: u64 = 4096;

/// One more than the greatest address of a target's memory: addresses have 40 bits (ECSS-E-ST-50-52C, the fields of a command).
pub const MEMORY_END: u64 = 1_099_511_627_776;

/// The greatest number that a line of a certificate or of a schedule may have for a channel, whether or not there is such a channel.
pub const MAX_NUMBER: u32 = 65535;

/// How many places a way may have: each channel with 0 to 32 deleted bytes.
pub const MAX_PLACES: u32 = 67584;
