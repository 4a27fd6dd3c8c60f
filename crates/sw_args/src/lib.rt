//! The words of the program swcheck.
#![tactic(auto)]

mod call;
mod command_line;
mod laws;
mod matched;
mod parts;
mod release;
mod values;

pub use call::{Asked, Call, WordsFault};
pub use command_line::commands_with;
pub use laws::logic_is_told;
pub use matched::words;
pub use release::{TOOLCHAIN, VERSION};
