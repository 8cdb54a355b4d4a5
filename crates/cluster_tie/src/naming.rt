use crate::view::View;
use atomic_table::Play;
use std::marker::{Brand, PhantomData};

/// Names one table. Each call of a program picks it.
pub trait Naming {
    ghost use Rattle.atomic_table.specs.Seated.{TableId};

    ghost table: { TableId };
}

impl Naming for Brand {
    ghost use Rattle.cluster_tie.specs.Rules.{no_table};

    ghost table = { no_table };
}

/// An entry, with the bytes that it leaves open. Each call of a program picks it.
pub trait TiedEntry {
    ghost use Rattle.world.specs.Entry.{Filled};

    ghost entry: { Filled };
}

impl TiedEntry for Brand {
    ghost use Rattle.cluster_tie.specs.Rules.{no_entry};

    ghost entry = { no_entry };
}

// The step that appends the entry.
pub struct Appends<E: TiedEntry> {
    entry: PhantomData<E>,
}

impl<E: TiedEntry> Play<u64, View> for Appends<E> {
    ghost use Rattle.cluster_tie.specs.Rules.{appended};

    ghost then = { appended E.entry };
}
