//! Brackets that are open, and entries that headers opened.
ghost use Rattle.sw_faults.specs.Places.{IsClosing};

use crate::made::Made;
use sw_text::{Section, Standing};

/// A bracket that is open, and the section of the table that it opened, or of the entry that stands
/// next in its list.
#[derive(Clone, Copy)]
pub(crate) enum Frame {
    Table(Option<Section>),
    List(Option<Section>),
}

impl Frame {
    /// What closes the bracket.
    pub(crate) fn closing_byte(self) -> u8
        ensures { IsClosing result }
    {
        match self {
            Frame::Table(_) => b'}',
            Frame::List(_) => b']',
        }
    }

    /// The same bracket behind a comma.
    pub(crate) fn next(self) -> Frame {
        let Frame::List(Some(section)) = self else {
            return self;
        };
        match section.standing() {
            Some(
                Standing {
                    within,
                    key,
                    number: Some(number),
                },
            ) => Frame::List(within.inner(key.text(), number.saturating_add(1))),
            _ => self,
        }
    }
}

/// The last entry of each list that a header opened so far.
#[derive(Drop)]
pub(crate) struct Headers {
    pub(crate) last: Vec<Standing>,
}

impl Headers {
    /// The number of the last entry of the list at this key of a table.
    fn number(&self, parent: Section, name: &str) -> Option<usize> {
        for entry in &self.last {
            if entry.within == parent && entry.key.text() == name {
                return entry.number;
            }
        }
        None
    }

    /// The table that a part of a key leads to, from the table of the parts before it. `opens`: it
    /// opens an entry.
    pub(crate) fn enter(
        &mut self,
        parent: Option<Section>,
        name: &str,
        opens: bool,
    ) -> Made<Option<Section>> {
        let Some(parent) = parent else {
            return Ok(None);
        };
        let number = match self.number(parent, name) {
            Some(number) => number.saturating_add(usize::from(opens)),
            None => 0,
        };
        let section = parent.inner(name, number);
        if let Some(entered) = section
            && let Some(entry) = entered.standing()
            && opens
        {
            self.last.retain(|it| it.key != entry.key);
            self.last.push(entry)?;
        }
        Ok(section)
    }
}
