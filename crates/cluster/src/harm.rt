ghost use Rattle.std.specs.Prelude.{◌≡◌, ◌⊎◌, ◌-◌, ◌<◌, ◌^◌, ◌++◌, ◌∷◌, [], None, Some, false, length, IfErr};
ghost use Rattle.disk.specs.Disk.{Crashes, lost};
ghost use Rattle.disk.specs.Filling.{filled};
ghost use Rattle.disk.specs.Simulated.{crashed};
ghost use Rattle.world.specs.Entry.{Crashed, Lost};
ghost use Rattle.world.specs.Plain.{plain};
ghost use Rattle.world.specs.World.{world, MayFollow};
ghost use Rattle.cluster_tie.specs.Parts.{adds, disk_of, host_of, on_disk};

use crate::book::DiskBook;
use crate::cluster::Cluster;
use crate::cluster_name::ClusterName;
use crate::fault::HostFault;
use crate::journal::{Journal, Promise};
use cluster_tie::{DiskTie, TiedEntry};
use disk::SimDisk;
use std::marker::Brand;
use std::sync::Wait;
use world::Entry;

/// The disk crashes: its unsynced positions take the given bytes. Takes no memory.
pub fn commit_crash<N: ClusterName>(
    journal: &mut Journal<'_, N>,
    book: &mut DiskBook<N, SimDisk>,
    promise: Promise<N>,
    given: &[u8],
)
    requires closed { book.old.open_call ≡ None }
    requires given { 0 < length given.now }
    requires boot { book.old.disk.boot < 2 ^ 62 }
    requires there { book.old.disk.gone ≡ false }
    ensures journal { journal.new ≡ record { log = journal.old.log ++ Crashed book.old.own.number (filled given.now 0 book.old.disk.unsynced book.old.disk.bytes) ∷ []; promised = journal.old.promised - 1 } }
    ensures own { book.new.own ≡ adds book.old.own (length journal.old.log) (Crashed book.old.own.number (filled given.now 0 book.old.disk.unsynced book.old.disk.bytes)) }
    ensures disk { book.new.disk ≡ crashed book.old.disk given.now }
    ensures closed { book.new.open_call ≡ None }
{
    commit_crash_as::<Brand, N>(journal, book, promise, given)
}

fn commit_crash_as<E: TiedEntry, N: ClusterName>(
    journal: &mut Journal<'_, N>,
    book: &mut DiskBook<N, SimDisk>,
    promise: Promise<N>,
    given: &[u8],
)
    requires told { E.entry ≡ Crashed book.old.own.number (filled given.now 0 book.old.disk.unsynced book.old.disk.bytes) }
    requires closed { book.old.open_call ≡ None }
    requires given { 0 < length given.now }
    requires boot { book.old.disk.boot < 2 ^ 62 }
    requires there { book.old.disk.gone ≡ false }
    ensures journal { journal.new ≡ record { log = journal.old.log ++ E.entry ∷ []; promised = journal.old.promised - 1 } }
    ensures own { book.new.own ≡ adds book.old.own (length journal.old.log) E.entry }
    ensures disk { book.new.disk ≡ crashed book.old.disk given.now }
    ensures closed { book.new.open_call ≡ None }
{
    journal.spend::<E>(&mut book.tie, promise, Entry::DiskCrash(book.number));
    crash(&mut book.disk, given);
}

/// The disk is lost for good. Takes no memory.
pub fn commit_loss<N: ClusterName>(
    journal: &mut Journal<'_, N>,
    book: &mut DiskBook<N, SimDisk>,
    promise: Promise<N>,
)
    requires closed { book.old.open_call ≡ None }
    requires there { book.old.disk.gone ≡ false }
    ensures journal { journal.new ≡ record { log = journal.old.log ++ Lost book.old.own.number ∷ []; promised = journal.old.promised - 1 } }
    ensures own { book.new.own ≡ adds book.old.own (length journal.old.log) (Lost book.old.own.number) }
    ensures disk { book.new.disk ≡ lost book.old.disk }
    ensures closed { book.new.open_call ≡ None }
{
    journal.spend::<Brand>(&mut book.tie, promise, Entry::DiskGone(book.number));
    lose(&mut book.disk);
}

impl<'a, N: ClusterName> Journal<'a, N> {
    // Spends a promise on the entry that tells what befell a disk.
    fn spend<E: TiedEntry>(&mut self, disk: &mut DiskTie<N>, promise: Promise<N>, entry: Entry)
        requires told { entry ≡ plain E.entry }
        requires own { (disk_of E.entry ≡ Some disk.old.number) × (host_of E.entry ≡ None) }
        requires may { disk.old.entries ≡ on_disk disk.old.number self.old.log → MayFollow N.shape (world N.shape self.old.log) E.entry }
        ensures journal { self.new ≡ record { log = self.old.log ++ E.entry ∷ []; promised = self.old.promised - 1 } }
        ensures disk { disk.new ≡ adds disk.old (length self.old.log) E.entry }
    {
        let Promise { mut share } = promise;
        self.promises.sub(&mut share, 1);
        self.pool.merge(share);
        self.promised -= 1;
        self.ties.append_disk::<E>(&mut self.tie, disk);
        self.entries.push_reserved(entry);
    }
}

impl<'a, N: ClusterName> Cluster<'a, N, SimDisk> {
    /// Crashes a disk. One that is lost stays as it is, and no entry tells of it.
    pub fn crash_disk(&self, rt: &impl Wait, disk: u8, given: &[u8]) -> Result<(), HostFault>
        requires disk { disk < N.shape.disks }
        requires given { 0 < length given.now }
        ensures causes { IfErr result (λ fault. (fault ≡ HostFault.OpenCall) ⊎ (fault ≡ HostFault.JournalFull) ⊎ (fault ≡ HostFault.NoMemory)) }
    {
        let mut book = self.books[usize::from(disk)].lock(rt);
        if book.is_pending() || book.number() != disk {
            return Err(HostFault::OpenCall);
        }
        if !book.may_crash() {
            return Ok(());
        }
        let promise = self.journal.lock(rt).promise()?;
        commit_crash(&mut self.journal.lock(rt), &mut book, promise, given);
        Ok(())
    }

    /// Loses a disk for good. One that is lost already stays as it is, and no entry tells of it.
    pub fn lose_disk(&self, rt: &impl Wait, disk: u8) -> Result<(), HostFault>
        requires disk { disk < N.shape.disks }
        ensures causes { IfErr result (λ fault. (fault ≡ HostFault.OpenCall) ⊎ (fault ≡ HostFault.JournalFull) ⊎ (fault ≡ HostFault.NoMemory)) }
    {
        let mut book = self.books[usize::from(disk)].lock(rt);
        if book.is_pending() || book.number() != disk {
            return Err(HostFault::OpenCall);
        }
        if book.is_lost() {
            return Ok(());
        }
        let promise = self.journal.lock(rt).promise()?;
        commit_loss(&mut self.journal.lock(rt), &mut book, promise);
        Ok(())
    }
}

// The step of the disk itself.
fn crash(disk: &mut SimDisk, given: &[u8])
    requires given { 0 < length given.now }
    requires boot { disk.old.disk.boot < 2 ^ 62 }
    ensures exact { disk.new ≡ record disk.old { disk = crashed disk.old.disk given.now } }
    ensures crashes { Crashes disk.old.disk disk.new.disk }
    ensures size { length disk.new.disk.bytes ≡ length disk.old.disk.bytes }
{
    disk.crash(given);
}

fn lose(disk: &mut SimDisk)
    ensures { disk.new ≡ record disk.old { disk = lost disk.old.disk } }
{
    disk.lose();
}
