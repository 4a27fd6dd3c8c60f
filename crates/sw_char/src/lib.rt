//! The characters that carry packets, and packets.
#![tactic(auto)]

mod nchar;
mod packet;

pub use nchar::{End, NChar};
pub use packet::{Packet, cut_is_unique, packets};
