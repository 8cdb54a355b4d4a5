ghost use Rattle.std.specs.Prelude.{◌≡◌, ◌⊎◌, ◌≤◌, ◌<◌, false, [], All, IsTrue, IfOk, IfErr, OnOk, Some, None, vec_len, map, replicate};
ghost use Rattle.disk.specs.Simulated.{fresh_disk};
ghost use Rattle.torn_block.specs.Layout.{cluster_version};
ghost use Rattle.paxos_block.specs.Places.{image_length};
ghost use Rattle.host.specs.Host.{idles};
ghost use Rattle.world.specs.World.{opening_disk};
ghost use Rattle.torn_block.specs.declared.layout.TheConstants.{HOSTS};
ghost use Rattle.cluster_tie.specs.Parts.{AreFresh};
ghost use Rattle.cluster.specs.Book.{image_on};
ghost use Rattle.cluster.specs.Cluster.{IsStep, Ends};
ghost use Rattle.cluster.specs.Journal.{KeepsTokens};
ghost use Rattle.cluster.specs.Operations.{IsStarted};
ghost use Rattle.cluster.specs.Seat.{host_in};

use crate::book::DiskBook;
use crate::cluster_name::ClusterName;
use crate::commit::commit_step;
use crate::fault::HostFault;
use crate::journal::Journal;
use crate::opening::Foundation;
use crate::seat::HostSeat;
use cluster_tie::{DiskTie, HostTie, Ties, Tokens};
use disk::{Disk, NoMemory, SimDisk};
use host::{Config, HostAnswer};
use lock_command::HostNumber;
use std::alloc::Global;
use std::sync::{Mutex, Wait};

/// A lock for each disk, and one for the journal.
#[derive(Drop)]
pub struct Cluster<'a, N: ClusterName, D: Disk> {
    pub(crate) books: Vec<Mutex<DiskBook<N, D>>>,
    pub(crate) journal: Mutex<Journal<'a, N>>,
    pub(crate) slots: u16,
    ghost as_many: { vec_len books ≡ N.shape.disks },
    ghost few: { N.shape.disks < 256 },
    ghost long: { slots ≡ N.shape.slots },
}

impl<'a, N: ClusterName, D: Disk + Drop> Cluster<'a, N, D> {
    /// Hosts that have not started, over fresh disks. Each disk begins with as many zeros as an image takes, all of them synced,
    /// and its boot number is 1. Bytes after those are not looked at.
    pub fn new(
        alloc: Global,
        disks: Vec<D>,
        ties: &'a Ties<N>,
        foundation: Foundation<N>,
    ) -> Result<Cluster<'a, N, D>, NoMemory>
        requires as_many { vec_len disks ≡ N.shape.disks }
        requires tell { All (λ d. IsTrue (D.device d).tells) disks.items }
        requires large { All (λ d. image_length cluster_version N.shape.slots ≤ (D.device d).size) disks.items }
        requires fresh { All (λ d. image_on N.shape (D.state d) ≡ opening_disk N.shape) disks.items }
    {
        let Foundation {
            config,
            tokens,
            promises,
        } = foundation;
        let Tokens {
            journal,
            disks: marks,
            hosts,
        } = tokens;
        let (book, pool) = promises.open::<N>();
        let books = books_of(alloc, disks, marks)?;
        let hosts = waiting(alloc, hosts)?;
        let slots = config.slots();
        let journal = Journal::new(alloc, config, ties, journal, book, pool, hosts);
        Ok(Cluster {
            books,
            journal: Mutex::new(journal),
            slots,
        })
    }

    /// How many disks there are.
    pub fn disks(&self) -> u8
        ensures { result ≡ N.shape.disks }
    {
        self.books.len() as u8
    }

    /// How many slots the log has.
    pub fn slots(&self) -> u16
        ensures { result ≡ N.shape.slots }
    {
        self.slots
    }

    /// Starts a host.
    pub fn seat(
        &self,
        rt: &impl Wait,
        alloc: Global,
        host: HostNumber,
    ) -> Result<HostSeat<N>, HostFault>
        ensures ok { IfOk result (IsStarted host) }
        ensures causes { IfErr result (λ fault. (fault ≡ HostFault.SeatTaken) ⊎ (fault ≡ HostFault.JournalFull) ⊎ (fault ≡ HostFault.NoMemory)) }
    {
        self.journal.lock(rt).seat(alloc, host)
    }

    /// One step of a host: its next device call, and the entry of that.
    pub fn step(&self, rt: &impl Wait, seat: &mut HostSeat<N>) -> Result<(), HostFault>
        requires { idles (host_in N.shape seat.old) ≡ false }
        ensures ok { OnOk result (IsStep N.shape seat.old seat.new) }
        ensures err { IfErr result (λ fault. Ends N.shape fault seat.old seat.new) }
    {
        let disk = usize::from(seat.call().disk);
        let mut book = self.books[disk].lock(rt);
        if book.is_pending() || usize::from(book.number()) != disk {
            return Err(HostFault::OpenCall);
        }
        let promise = self.journal.lock(rt).promise()?;
        let touched = book.touch(seat);
        let mut journal = self.journal.lock(rt);
        commit_step(&mut journal, &mut book, seat, promise, touched);
        match seat.answer() {
            Some(HostAnswer::Refused(refusal)) => Err(HostFault::Refused(refusal)),
            _ => Ok(()),
        }
    }
}

impl<'a, N: ClusterName> Cluster<'a, N, SimDisk> {
    /// Hosts that have not started, over simulated disks of zeros.
    pub fn simulated(
        alloc: Global,
        ties: &'a Ties<N>,
        foundation: Foundation<N>,
    ) -> Result<Cluster<'a, N, SimDisk>, NoMemory> {
        let disks = fresh_disks(alloc, foundation.config)?;
        Cluster::new(alloc, disks, ties, foundation)
    }
}

fn fresh_disks(alloc: Global, config: Config) -> Result<Vec<SimDisk>, NoMemory>
    ensures { IfOk result (λ disks. disks.items ≡
        replicate config.disks (record { disk = fresh_disk (image_length cluster_version config.slots); failing = None; failures = 0 })) }
{
    let count = usize::from(config.disks());
    let mut disks = Vec::with_capacity(alloc, count)?;
    for _ in 0..count {
        disks.push_reserved(SimDisk::new(alloc, config.image_length())?);
    }
    Ok(disks)
}

// A book for each disk, with the token of its number.
fn books_of<N: ClusterName, D: Disk + Drop>(
    alloc: Global,
    disks: Vec<D>,
    marks: Vec<DiskTie<N>>,
) -> Result<Vec<Mutex<DiskBook<N, D>>>, NoMemory>
    requires tokens { AreFresh N.shape.disks marks.items }
    requires as_many { vec_len disks ≡ N.shape.disks }
    requires few { N.shape.disks < 256 }
    requires tell { All (λ d. IsTrue (D.device d).tells) disks.items }
    requires large { All (λ d. image_length cluster_version N.shape.slots ≤ (D.device d).size) disks.items }
    requires fresh { All (λ d. image_on N.shape (D.state d) ≡ opening_disk N.shape) disks.items }
    ensures { IfOk result (λ books. vec_len books ≡ N.shape.disks) }
{
    let count = disks.len();
    let mut books = Vec::with_capacity(alloc, count)?;
    let mut disks = disks;
    let mut marks = marks;
    for _k in 0..count {
        let Some(disk) = disks.pop() else {
            unreachable!()
        };
        let Some(mark) = marks.pop() else {
            unreachable!()
        };
        let number = disks.len() as u8;
        books.push_reserved(Mutex::new(DiskBook::new(number, disk, mark)));
    }
    books.reverse();
    Ok(books)
}

// The tokens, each of which waits for its host.
#[tactic(auto, using(crate::proofs::Journals::fresh_wait))]
fn waiting<N: ClusterName>(
    alloc: Global,
    hosts: Vec<HostTie<N>>,
) -> Result<Vec<Option<HostTie<N>>>, NoMemory>
    requires { AreFresh HOSTS hosts.items }
    ensures { IfOk result (λ v. KeepsTokens v.items []) }
{
    somes(alloc, hosts)
}

fn somes<N: ClusterName>(
    alloc: Global,
    hosts: Vec<HostTie<N>>,
) -> Result<Vec<Option<HostTie<N>>>, NoMemory>
    ensures { IfOk result (λ v. v.items ≡ map (λ t. Some t) hosts.items) }
{
    match hosts.into_iter().map(|token| Some(token)).collect(alloc) {
        Ok(tokens) => Ok(tokens),
        Err(_) => Err(NoMemory),
    }
}
