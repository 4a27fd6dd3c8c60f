//! Names in the order in which they came.
ghost use Rattle.std.specs.Prelude.{◌≡◌, ℕ, List, ◌<◌, ◌++◌, ◌∷◌, [], false, length, position, string_bytes, take, OnOk, OnErr, IfOk, IfSome};
ghost use Rattle.std.specs.List.{list_any};
ghost use Rattle.std.specs.Str.{bytes_eq};

use indexmap::IndexSet;
use std::alloc::{AllocError, Global};
use std::marker::Model;

/// Names, each once, in the order in which they came: a clause sees the list of their bytes.
#[derive(Drop)]
pub(crate) struct NameTable {
    names: IndexSet<String>,
}

impl Model for NameTable {
    ghost use Rattle.std.specs.Prelude.{ℕ, List, map, string_bytes};

    ghost Value = { List (List ℕ) };

    ghost view = { λ t. map string_bytes t.names.keys };
}

impl NameTable {
    pub(crate) fn new(alloc: Global) -> NameTable
        ensures { result ≡ [] }
    {
        NameTable {
            names: IndexSet::new(alloc),
        }
    }

    /// The place of the name.
    pub(crate) fn index_of(&self, name: &str) -> Option<usize>
        ensures place { result ≡ position (bytes_eq name.now) self.now }
        ensures within { IfSome result (λ i. i < length self.now) }
    {
        self.names.get_index_of(name)
    }

    /// Lets the names go.
    pub(crate) fn discard(self) {}

    /// Adds a new name at the end, and what has that name at the end of its list. Nothing is added if there was no memory for
    /// the name.
    pub(crate) fn add<T: Drop>(
        &mut self,
        name: Result<String, AllocError>,
        named: T,
        all: &mut Vec<T>,
    ) -> Result<(), AllocError>
        requires { IfOk name (λ n. list_any (bytes_eq (string_bytes n)) self.old ≡ false) }
        ensures names { (text : List ℕ) → IfOk name (λ n. string_bytes n ≡ text) → OnOk result (self.new ≡ self.old ++ text ∷ []) }
        ensures all { OnOk result (all.new.items ≡ all.old.items ++ named ∷ []) }
        ensures names_kept { OnErr result (self.new ≡ self.old) }
        ensures all_kept { OnErr result (all.new.items ≡ all.old.items) }
    {
        let Ok(name) = name else {
            return Err(AllocError);
        };
        all.reserve(1)?;
        self.names.insert(name)?;
        all.push_reserved(named);
        Ok(())
    }

    /// Keeps the first `count` names.
    pub(crate) fn truncate(&mut self, count: usize)
        ensures { self.new ≡ take count self.old }
    {
        self.names.truncate(count);
    }
}
