//! Where the fault of a network file or a load file stands, which other entries have to do with it, and what to do about it: hints, for a person.
#![tactic(auto)]

mod entries;
mod escaped;
mod fault_hints;
mod fault_offsets;
mod finding;
mod frame;
mod hint;
mod key_words;
mod line_column;
mod lookup;
mod made;
mod names;
mod nearest;
mod note;
mod note_words;
mod notes;
mod offset;
mod passing;
mod reply_notes;
mod scan;
mod sought;
mod syntax;
mod unclosed;
mod unread;
mod words;

pub use entries::text_of;
pub use escaped::show;
pub use fault_hints::{fault_hint, found_at, hint_at_fault};
pub use fault_offsets::fault_offset;
pub use hint::Hint;
pub use line_column::{Position, position_at};
pub use nearest::meant_help;
pub use unread::text_fault;
pub use words::{expected_text, help_text};
