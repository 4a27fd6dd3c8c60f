//! What in a network file is probably a slip, although the file is valid.
#![tactic(auto)]

mod addresses;
mod alike;
mod asking;
mod circling_words;
mod entries;
mod finding;
pub mod laws;
mod lint;
mod marks;
mod network_notes;
mod node_marks;
mod slips;
mod tables;
mod texts;

pub use circling_words::{circling_texts, flow_circling_text};
pub use finding::lints;
pub use lint::Lint;
pub use network_notes::{Note, NoteKind, circling_notes, notes};
pub use texts::lint_texts;
