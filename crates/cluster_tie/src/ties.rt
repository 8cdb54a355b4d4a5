ghost use Rattle.std.specs.Prelude.{◌≡◌, ◌<◌, ◌++◌, ◌∷◌, [], Some, None, length};
ghost use Rattle.cluster_tie.specs.Parts.{on_disk, of_host, disk_of, host_of, adds};

use crate::naming::{Appends, Naming, TiedEntry};
use crate::rule::{Front, Law, Lends, Sees};
use crate::token::{DiskTie, HostTie, JournalTie};
use crate::view::View;
use atomic_table::Table;
use std::alloc::Global;
use std::marker::PhantomData;

/// The table that the tokens are of.
#[derive(Drop)]
pub struct Ties<N: Naming> {
    pub(crate) table: Table<u64, View, u8, Law, Global>,
    pub(crate) of: PhantomData<N>,
    ghost table_is: { table.shared.table_id ≡ N.table },
    ghost has_word: { 0 < table.shared.table_id.words },
}

impl<N: Naming> Ties<N> {
    /// Appends an entry of a host on a disk to the journal's list, to the disk's and to the host's. All three then know that the
    /// last two were parts of the journal's.
    pub fn append<E: TiedEntry>(
        &self,
        journal: &mut JournalTie<N>,
        disk: &mut DiskTie<N>,
        host: &mut HostTie<N>,
    )
        requires { (disk_of E.entry ≡ Some disk.old.number) × (host_of E.entry ≡ Some host.old.number) }
        ensures journal { journal.new ≡ journal.old ++ E.entry ∷ [] }
        ensures disk { disk.new ≡ adds disk.old (length journal.old) E.entry }
        ensures host { host.new ≡ adds host.old (length journal.old) E.entry }
        ensures parts { (disk.old.entries ≡ on_disk disk.old.number journal.old) × (host.old.entries ≡ of_host host.old.number journal.old) }
    {
        let table = &self.table.shared;
        let disks = table.split_seat::<Front>(&mut disk.seat);
        table.join_seat::<Lends>(&mut journal.seat, disks);
        let hosts = table.split_seat::<Front>(&mut host.seat);
        table.join_seat::<Lends>(&mut journal.seat, hosts);
        table.load::<Appends<E>>(&mut journal.seat, 0);
        disk.seat = table.split_seat::<Front>(&mut journal.seat);
        host.seat = table.split_seat::<Front>(&mut journal.seat);
    }

    /// Appends an entry of a host that is on no disk, in the same way.
    pub fn append_host<E: TiedEntry>(&self, journal: &mut JournalTie<N>, host: &mut HostTie<N>)
        requires { (disk_of E.entry ≡ None) × (host_of E.entry ≡ Some host.old.number) }
        ensures journal { journal.new ≡ journal.old ++ E.entry ∷ [] }
        ensures host { host.new ≡ adds host.old (length journal.old) E.entry }
        ensures parts { host.old.entries ≡ of_host host.old.number journal.old }
    {
        let shared = &self.table.shared;
        let hosts = shared.split_seat::<Front>(&mut host.seat);
        shared.join_seat::<Lends>(&mut journal.seat, hosts);
        shared.load::<Appends<E>>(&mut journal.seat, 0);
        host.seat = shared.split_seat::<Front>(&mut journal.seat);
    }

    /// Appends an entry on a disk that is of no host, in the same way.
    pub fn append_disk<E: TiedEntry>(&self, journal: &mut JournalTie<N>, disk: &mut DiskTie<N>)
        requires { (disk_of E.entry ≡ Some disk.old.number) × (host_of E.entry ≡ None) }
        ensures journal { journal.new ≡ journal.old ++ E.entry ∷ [] }
        ensures disk { disk.new ≡ adds disk.old (length journal.old) E.entry }
        ensures parts { disk.old.entries ≡ on_disk disk.old.number journal.old }
    {
        let shared = &self.table.shared;
        let disks = shared.split_seat::<Front>(&mut disk.seat);
        shared.join_seat::<Lends>(&mut journal.seat, disks);
        shared.load::<Appends<E>>(&mut journal.seat, 0);
        disk.seat = shared.split_seat::<Front>(&mut journal.seat);
    }

    /// The journal and a disk learn that the disk's entries are its part of the journal's.
    pub fn meet_disk(&self, journal: &mut JournalTie<N>, disk: &mut DiskTie<N>)
        ensures same { (journal.new ≡ journal.old) × (disk.new ≡ disk.old) }
        ensures part { disk.old.entries ≡ on_disk disk.old.number journal.old }
    {
        let table = &self.table.shared;
        let disks = table.split_seat::<Front>(&mut disk.seat);
        table.join_seat::<Lends>(&mut journal.seat, disks);
        table.load::<Sees>(&mut journal.seat, 0);
        disk.seat = table.split_seat::<Front>(&mut journal.seat);
    }

    /// The journal and a host learn that the host's entries are its part of the journal's.
    pub fn meet_host(&self, journal: &mut JournalTie<N>, host: &mut HostTie<N>)
        ensures same { (journal.new ≡ journal.old) × (host.new ≡ host.old) }
        ensures part { host.old.entries ≡ of_host host.old.number journal.old }
    {
        let shared = &self.table.shared;
        let hosts = shared.split_seat::<Front>(&mut host.seat);
        shared.join_seat::<Lends>(&mut journal.seat, hosts);
        shared.load::<Sees>(&mut journal.seat, 0);
        host.seat = shared.split_seat::<Front>(&mut journal.seat);
    }
}
