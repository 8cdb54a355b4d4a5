use crate::naming::Naming;
use crate::view::View;
use atomic_table::Seat;
use std::marker::{Model, PhantomData};

/// The journal's token. Contracts see it as the list of all entries.
#[derive(Drop)]
pub struct JournalTie<N: Naming> {
    pub(crate) seat: Seat<u64, View>,
    pub(crate) of: PhantomData<N>,
}

impl<N: Naming> Model for JournalTie<N> {
    ghost use Rattle.std.specs.Prelude.{◌≡◌, List, []};
    ghost use Rattle.world.specs.Entry.{Filled};
    ghost use Rattle.cluster_tie.specs.View.{keeper};

    ghost Value = { List Filled };

    ghost view = { λ t. t.seat.me.0.log };

    ghost invariant = { λ t. (t.seat.table_id ≡ N.table) × (t.seat.me ≡ (keeper t.seat.me.0.log [], [])) };
}

/// A disk's token. Contracts see it as the disk's number and its entries.
#[derive(Drop)]
pub struct DiskTie<N: Naming> {
    pub(crate) seat: Seat<u64, View>,
    pub(crate) of: PhantomData<N>,
}

impl<N: Naming> Model for DiskTie<N> {
    ghost use Rattle.std.specs.Prelude.{◌≡◌, [], true};
    ghost use Rattle.cluster_tie.specs.Parts.{Own, own_of};
    ghost use Rattle.cluster_tie.specs.View.{own, number_in, entries_in};

    ghost Value = { Own };

    ghost view = { λ t. own_of (number_in t.seat.me.0.parts) (entries_in t.seat.me.0.parts) };

    ghost invariant = { λ t. (t.seat.table_id ≡ N.table) × (t.seat.me ≡ (own true (number_in t.seat.me.0.parts) (entries_in t.seat.me.0.parts), [])) };
}

/// A host's token. Contracts see it as the host's number and its entries.
#[derive(Drop)]
pub struct HostTie<N: Naming> {
    pub(crate) seat: Seat<u64, View>,
    pub(crate) of: PhantomData<N>,
}

impl<N: Naming> Model for HostTie<N> {
    ghost use Rattle.std.specs.Prelude.{◌≡◌, [], false};
    ghost use Rattle.cluster_tie.specs.Parts.{Own, own_of};
    ghost use Rattle.cluster_tie.specs.View.{own, number_in, entries_in};

    ghost Value = { Own };

    ghost view = { λ t. own_of (number_in t.seat.me.0.parts) (entries_in t.seat.me.0.parts) };

    ghost invariant = { λ t. (t.seat.table_id ≡ N.table) × (t.seat.me ≡ (own false (number_in t.seat.me.0.parts) (entries_in t.seat.me.0.parts), [])) };
}
