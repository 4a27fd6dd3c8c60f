//! RMAP: commands, replies and targets (ECSS-E-ST-50-52C).
#![tactic(auto)]

mod checksum;
mod command;
mod command_status;
mod config;
mod instruction;
pub mod laws;
mod no_command;
mod reply;
mod status;
mod target;
mod writing;

pub use checksum::crc;
pub use command::{Command, PROTOCOL};
pub use config::TargetConfig;
pub use instruction::Instruction;
pub use no_command::NoCommand;
pub use reply::reply_to;
pub use target::Target;
pub use writing::write_command;
