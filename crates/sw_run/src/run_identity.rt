//! Which run a lock belongs to.

use std::marker::Brand;

/// Of which network, load, limit and journal a run is. Of what comes out of a lock only the type
/// is known: so a run picks a type that says these.
pub(crate) trait RunIdentity {
    ghost use Rattle.atomic_table.specs.Seated.{TableId};
    ghost use Rattle.std.specs.Prelude.{List, ℕ};
    ghost use Rattle.sw_load.specs.Load.{LoadEntry};
    ghost use Rattle.sw_config.specs.Entries.{Declaration};

    ghost declared: { Declaration };

    ghost load: { List LoadEntry };

    ghost limit: { ℕ };

    ghost name: { TableId };
}

impl RunIdentity for Brand {
    ghost use Rattle.std.specs.Prelude.{[]};
    ghost use Rattle.sw_config.specs.Entries.{empty};
    ghost use Rattle.sw_journal.specs.Views.{no_table};

    ghost declared = { empty };

    ghost load = { [] };

    ghost limit = { 0 };

    ghost name = { no_table };
}
