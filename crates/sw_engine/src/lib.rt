//! How a command reads its network file, alone or with a second file, tells what it found of them as lines or in another form, and hands up what it
//! read and found. What opens files by their paths stands here too.
#![tactic(auto)]

mod command_end;
mod file_system;
mod finding;
mod form;
mod lines;
mod network_file;
mod system_files;
mod telling;

pub use command_end::CommandEnd;
pub use file_system::{FileSystem, keep_text, read_path};
pub use finding::Finding;
pub use form::Form;
pub use lines::{AsLines, Lines};
pub use network_file::{
    NetworkFile, network_file_of, read_network_file, read_two_files, second_bytes,
};
pub use system_files::SystemFiles;
pub use telling::{answer_to_file, tell_answer, tell_found};
