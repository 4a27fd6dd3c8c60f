//! What the texts of this project have in common: decimal numbers, cuts at a byte, and whole texts,
//! read up to a limit and written.
//!
//! One table of a TOML text, read key by key, and the faults of a text with their places.
//!
//! How an engine reads its texts, what it answers, and how it ends.
#![tactic(auto)]

mod answer;
mod bytes;
mod decimal;
mod document;
mod fault;
mod fault_texts;
pub mod key_laws;
mod keys;
pub mod laws;
mod limits;
mod names;
mod read_stream;
mod read_texts;
pub mod section_keys;
mod sections;
pub mod statuses;
mod table;
mod text_parts;
mod write_answer;
mod write_stream;

pub use answer::{Answer, ByteAnswer};
pub use bytes::cut;
pub use decimal::number;
pub use document::read_document;
pub use fault::{FileFault, KeyFault, OrMemory, TextFault};
pub use fault_texts::{fault_text, where_text};
pub use keys::{Key, Section, Version};
pub use limits::MAX_TEXT;
pub use names::Name;
pub use read_stream::{ReadError, read_whole};
pub use read_texts::{InputError, InputText, read_one, read_two};
pub use sections::Standing;
pub use table::{TableEntry, is_known};
pub use text_parts::TextParts;
pub use write_answer::{
    Ended, tell, tell_answer, tell_bytes, tell_memory, tell_parts, tell_unread,
};
pub use write_stream::{WriteError, write_whole};
