ghost use Rattle.std.specs.Prelude.{◌≡◌, ◌≢◌, ◌⊎◌, ◌+◌, ◌-◌, ◌<◌, ◌≤◌, ◌↔◌, ◌++◌, ◌∷◌, [], true, false, Some, None, Err, IsTrue, IfOk, IfErr, IfSome, IfNone, OnOk, OnErr, length, slice_get, slice_set, vec_len, vec_capacity};
ghost use Rattle.torn_block.specs.declared.layout.TheConstants.{HOSTS};
ghost use Rattle.host.specs.Host.{fresh};
ghost use Rattle.host.specs.Kept.{LeadsTo};
ghost use Rattle.world.specs.Entry.{Start};
ghost use Rattle.world.specs.Plain.{plains};
ghost use Rattle.world.specs.World.{IsFreshRun};
ghost use Rattle.cluster_tie.specs.Parts.{own_of, of_host};
ghost use Rattle.cluster.specs.Journal.{AreWaiting, KeepsTokens};

use crate::cluster_name::ClusterName;
use crate::fault::HostFault;
use crate::receipt::Receipt;
use crate::seat::HostSeat;
use cluster_tie::{HostTie, JournalTie, Naming, TiedEntry, Ties};
use host::{Config, HostCore};
use lock_command::HostNumber;
use std::alloc::Global;
use std::marker::{Brand, Model};
use std::sync::ledger::{Book, Share};
use world::Entry;

/// How many entries a journal has at most, kept or promised.
pub const MOST: usize = 1_000_000;

/// Room in a journal for one entry. It is spent by an entry or given back.
#[derive(Drop)]
pub struct Promise<N: ClusterName> {
    pub(crate) share: Share<N>,
    ghost one: { share.amount ≡ 1 },
    ghost backed: { share.parts ≡ 1 },
}

/// All that the hosts and disks of a cluster did, as one list of entries.
#[derive(Drop)]
pub struct Journal<'a, N: ClusterName> {
    pub(crate) config: Config,
    pub(crate) ties: &'a Ties<N>,
    pub(crate) tie: JournalTie<N>,
    pub(crate) entries: Vec<Entry>,
    pub(crate) promised: usize,
    pub(crate) promises: Book<N>,
    pub(crate) pool: Share<N>,
    pub(crate) hosts: Vec<Option<HostTie<N>>>,
}

impl<'a, N: ClusterName> Model for Journal<'a, N> {
    ghost use Rattle.std.specs.Prelude.{◌≡◌, ◌+◌, ◌≤◌, ◌<◌, vec_len, vec_capacity};
    ghost use Rattle.world.specs.Plain.{plains};
    ghost use Rattle.world.specs.World.{IsFreshRun};
    ghost use Rattle.cluster.specs.Journal.{JournalState, KeepsTokens};
    ghost use Rattle.cluster.specs.declared.journal.TheConstants.{MOST};

    ghost Value = { JournalState };

    ghost view = { λ j. record { log = j.tie; promised = j.promised } };

    ghost invariant = { λ j. record {
      config : j.config ≡ N.shape;
      kept : j.entries.items ≡ plains j.tie;
      run : IsFreshRun N.shape j.tie;
      room : vec_len j.entries + j.promised ≤ vec_capacity j.entries;
      most : vec_len j.entries + j.promised ≤ MOST;
      total : j.promises.total ≡ j.promised;
      parts : j.pool.parts + j.promised ≡ N.all;
      enough : MOST < N.all;
      empty : j.pool.amount ≡ 0;
      tokens : KeepsTokens j.hosts.items j.tie;
    } };
}

impl<'a, N: ClusterName> Journal<'a, N> {
    pub(crate) fn new(
        alloc: Global,
        config: Config,
        ties: &'a Ties<N>,
        tie: JournalTie<N>,
        promises: Book<N>,
        pool: Share<N>,
        hosts: Vec<Option<HostTie<N>>>,
    ) -> Journal<'a, N>
        requires config { config ≡ N.shape }
        requires tie { tie ≡ [] }
        requires hosts { KeepsTokens hosts.items [] }
        requires promises { (promises.total ≡ 0) × (pool.parts ≡ N.all) × (MOST < N.all) × (pool.amount ≡ 0) }
        ensures { result ≡ record { log = []; promised = 0 } }
    {
        Journal {
            config,
            ties,
            tie,
            entries: Vec::new(alloc),
            promised: 0,
            promises,
            pool,
            hosts,
        }
    }

    /// The entries, in the order in which they were kept.
    pub fn entries(&self) -> &[Entry]
        ensures entries { result.now ≡ plains self.now.log }
        ensures run { IsFreshRun N.shape self.now.log }
    {
        &self.entries
    }

    /// Room for one entry more.
    pub fn promise(&mut self) -> Result<Promise<N>, HostFault>
        ensures promised { OnOk result (self.new ≡ record self.old { promised = self.old.promised + 1 }) }
        ensures unchanged { OnErr result (self.new ≡ self.old) }
        ensures full { result ≡ Err HostFault.JournalFull ↔ MOST ≤ length self.old.log + self.old.promised }
        ensures causes { IfErr result (λ fault. (fault ≡ HostFault.JournalFull) ⊎ (fault ≡ HostFault.NoMemory)) }
    {
        has_room(&mut self.entries, self.promised)?;
        self.promised += 1;
        self.promises.add(&mut self.pool, 1);
        Ok(Promise {
            share: self.pool.split_off(1, 1),
        })
    }

    /// Gives up the room.
    pub fn give_back(&mut self, promise: Promise<N>)
        ensures { self.new ≡ record self.old { promised = self.old.promised - 1 } }
    {
        let Promise { mut share } = promise;
        self.promises.sub(&mut share, 1);
        self.pool.merge(share);
        self.promised -= 1;
    }
}

impl<'a, N: ClusterName> Journal<'a, N> {
    // Starts a host whose token waits.
    pub(crate) fn seat(&mut self, alloc: Global, host: HostNumber) -> Result<HostSeat<N>, HostFault>
        ensures ok { IfOk result (λ s. s ≡ own_of host ((length self.old.log, Start host) ∷ [])) }
        ensures appended { OnOk result (self.new ≡ record self.old { log = self.old.log ++ Start host ∷ [] }) }
        ensures err { OnErr result (self.new ≡ self.old) }
        ensures taken { result ≡ Err HostFault.SeatTaken ↔ of_host host self.old.log ≢ [] }
        ensures full { result ≡ Err HostFault.JournalFull ↔ (of_host host self.old.log ≡ []) × (MOST ≤ length self.old.log + self.old.promised) }
        ensures causes { IfErr result (λ fault. (fault ≡ HostFault.SeatTaken) ⊎ (fault ≡ HostFault.JournalFull) ⊎ (fault ≡ HostFault.NoMemory)) }
    {
        if !self.waits(host.get().into()) {
            return Err(HostFault::SeatTaken);
        }
        self.seat_as::<Brand>(alloc, host)
    }

    fn seat_as<E: TiedEntry>(
        &mut self,
        alloc: Global,
        host: HostNumber,
    ) -> Result<HostSeat<N>, HostFault>
        requires told { E.entry ≡ Start host }
        requires waits { of_host host self.old.log ≡ [] }
        ensures ok { IfOk result (λ s. s ≡ own_of host ((length self.old.log, E.entry) ∷ [])) }
        ensures appended { OnOk result (self.new ≡ record self.old { log = self.old.log ++ E.entry ∷ [] }) }
        ensures err { OnErr result (self.new ≡ self.old) }
        ensures full { result ≡ Err HostFault.JournalFull ↔ MOST ≤ length self.old.log + self.old.promised }
        ensures causes { IfErr result (λ fault. (fault ≡ HostFault.JournalFull) ⊎ (fault ≡ HostFault.NoMemory)) }
    {
        has_room(&mut self.entries, self.promised)?;
        let (core, acks) = start(alloc, host, self.config)?;
        let Some(mut tie) = taken(&mut self.hosts, host.get().into()) else {
            unreachable!()
        };
        self.ties.append_host::<E>(&mut self.tie, &mut tie);
        self.entries.push_reserved(Entry::Start(host));
        Ok(HostSeat {
            core,
            submitting: None,
            acks,
            tie,
        })
    }

    // Whether the token of this host waits, so that the host has no entry.
    pub(crate) fn waits(&mut self, host: usize) -> bool
        requires { host < HOSTS }
        ensures same { self.new ≡ self.old }
        ensures waits { IsTrue result ↔ of_host host self.old.log ≡ [] }
    {
        meets(self.ties, &mut self.tie, &mut self.hosts, host)
    }
}

// A host that has learned nothing, with room for its receipts.
pub(crate) fn start(
    alloc: Global,
    host: HostNumber,
    config: Config,
) -> Result<(HostCore, Vec<Receipt>), HostFault>
    ensures core { IfOk result (λ r. LeadsTo config host fresh r.0) }
    ensures acks { IfOk result (λ r. (r.1.items ≡ []) × (config.slots ≤ vec_capacity r.1)) }
    ensures memory { IfErr result (λ fault. fault ≡ HostFault.NoMemory) }
{
    let Ok(core) = HostCore::start(alloc, host, config) else {
        return Err(HostFault::NoMemory);
    };
    let Ok(acks) = Vec::with_capacity(alloc, usize::from(config.slots())) else {
        return Err(HostFault::NoMemory);
    };
    Ok((core, acks))
}

// Whether the token of this host waits. It then meets the journal.
fn meets<N: Naming>(
    ties: &Ties<N>,
    journal: &mut JournalTie<N>,
    hosts: &mut Vec<Option<HostTie<N>>>,
    host: usize,
) -> bool
    requires host { host < vec_len hosts.old }
    requires waiting { AreWaiting hosts.old.items }
    ensures same { (journal.new ≡ journal.old) × (hosts.new.items ≡ hosts.old.items) }
    ensures waits { result ≡ true → of_host host journal.old ≡ [] }
    ensures gone { result ≡ false → slice_get hosts.old.items host ≡ Some None }
{
    match &mut hosts[host] {
        Some(token) => {
            ties.meet_host(journal, token);
            true
        }
        None => false,
    }
}

// Room for one entry more than those that are promised.
pub(crate) fn has_room(entries: &mut Vec<Entry>, promised: usize) -> Result<(), HostFault>
    requires room { vec_len entries.old + promised ≤ vec_capacity entries.old }
    requires most { vec_len entries.old + promised ≤ MOST }
    ensures items { entries.new.items ≡ entries.old.items }
    ensures kept { vec_len entries.new + promised ≤ vec_capacity entries.new }
    ensures ok { OnOk result ((vec_len entries.new + promised + 1 ≤ vec_capacity entries.new) × (vec_len entries.new + promised < MOST)) }
    ensures full { result ≡ Err HostFault.JournalFull ↔ MOST ≤ vec_len entries.old + promised }
    ensures causes { IfErr result (λ fault. (fault ≡ HostFault.JournalFull) ⊎ (fault ≡ HostFault.NoMemory)) }
{
    if MOST - promised <= entries.len() {
        return Err(HostFault::JournalFull);
    }
    if entries.reserve(promised + 1).is_err() {
        return Err(HostFault::NoMemory);
    }
    Ok(())
}

// The token that waits for this host.
fn taken<N: Naming>(hosts: &mut Vec<Option<HostTie<N>>>, host: usize) -> Option<HostTie<N>>
    requires host { host < vec_len hosts.old }
    requires waiting { AreWaiting hosts.old.items }
    ensures rest { hosts.new.items ≡ slice_set hosts.old.items host None }
    ensures token { IfSome result (λ t. t ≡ own_of host []) }
    ensures none { IfNone result (slice_get hosts.old.items host ≡ Some None) }
{
    hosts[host].take()
}
