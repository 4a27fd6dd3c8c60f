//! What is looked for in a text.
use sw_text::Section;

/// What is looked for in the text of a network file or a load file: a table, or a key of it.
#[derive(Clone, Copy)]
pub(crate) struct Sought<'a> {
    /// The table that is looked for, or that has the key.
    pub(crate) section: Section,
    /// `None`: the table itself, which is an entry of a list.
    pub(crate) key: Option<&'a str>,
}
