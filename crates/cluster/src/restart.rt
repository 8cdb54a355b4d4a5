ghost use Rattle.std.specs.Prelude.{◌≡◌, ◌↔◌, ◌⊎◌, ◌<◌, ◌≤◌, ◌+◌, ◌++◌, ◌∷◌, [], Err, OnOk, OnErr, IfErr, length, vec_len, vec_capacity};
ghost use Rattle.world.specs.Entry.{Start, Stop};
ghost use Rattle.cluster_tie.specs.Parts.{adds};
ghost use Rattle.cluster.specs.declared.journal.TheConstants.{MOST};

use crate::cluster_name::ClusterName;
use crate::fault::HostFault;
use crate::journal::{Journal, MOST, start};
use crate::seat::HostSeat;
use cluster_tie::TiedEntry;
use std::alloc::Global;
use std::marker::Brand;
use world::Entry;

impl<'a, N: ClusterName> Journal<'a, N> {
    // The host stops and starts again. Room for both entries, and for what the host keeps, is had first.
    pub(crate) fn restart(&mut self, alloc: Global, seat: &mut HostSeat<N>) -> Result<(), HostFault>
        ensures seat { OnOk result (seat.new ≡ adds (adds seat.old (length self.old.log) (Stop seat.old.number)) (length self.old.log + 1) (Start seat.old.number)) }
        ensures journal { OnOk result (self.new ≡ record self.old { log = (self.old.log ++ Stop seat.old.number ∷ []) ++ Start seat.old.number ∷ [] }) }
        ensures unchanged { OnErr result ((seat.new ≡ seat.old) × (self.new ≡ self.old)) }
        ensures full { result ≡ Err HostFault.JournalFull ↔ MOST < length self.old.log + self.old.promised + 2 }
        ensures causes { IfErr result (λ fault. (fault ≡ HostFault.JournalFull) ⊎ (fault ≡ HostFault.NoMemory)) }
    {
        self.restart_as::<Brand, Brand>(alloc, seat)
    }

    fn restart_as<S: TiedEntry, T: TiedEntry>(
        &mut self,
        alloc: Global,
        seat: &mut HostSeat<N>,
    ) -> Result<(), HostFault>
        requires stop { S.entry ≡ Stop seat.old.number }
        requires start { T.entry ≡ Start seat.old.number }
        ensures seat { OnOk result (seat.new ≡ adds (adds seat.old (length self.old.log) S.entry) (length self.old.log + 1) T.entry) }
        ensures journal { OnOk result (self.new ≡ record self.old { log = (self.old.log ++ S.entry ∷ []) ++ T.entry ∷ [] }) }
        ensures unchanged { OnErr result ((seat.new ≡ seat.old) × (self.new ≡ self.old)) }
        ensures full { result ≡ Err HostFault.JournalFull ↔ MOST < length self.old.log + self.old.promised + 2 }
        ensures causes { IfErr result (λ fault. (fault ≡ HostFault.JournalFull) ⊎ (fault ≡ HostFault.NoMemory)) }
    {
        has_room_for_two(&mut self.entries, self.promised)?;
        let host = seat.core.host();
        // Called for its contract only: it tells the checker the range of the host's number.
        let _number = host.get();
        let (core, acks) = start(alloc, host, self.config)?;
        self.ties.append_host::<S>(&mut self.tie, &mut seat.tie);
        self.entries.push_reserved(Entry::Stop(host));
        self.ties.append_host::<T>(&mut self.tie, &mut seat.tie);
        self.entries.push_reserved(Entry::Start(host));
        seat.core = core;
        seat.acks = acks;
        seat.submitting = None;
        Ok(())
    }
}

// Room for two entries more than those that are promised.
fn has_room_for_two(entries: &mut Vec<Entry>, promised: usize) -> Result<(), HostFault>
    requires room { vec_len entries.old + promised ≤ vec_capacity entries.old }
    requires most { vec_len entries.old + promised ≤ MOST }
    ensures items { entries.new.items ≡ entries.old.items }
    ensures kept { vec_len entries.new + promised ≤ vec_capacity entries.new }
    ensures ok { OnOk result ((vec_len entries.new + promised + 2 ≤ vec_capacity entries.new) × (vec_len entries.new + promised + 2 ≤ MOST)) }
    ensures full { result ≡ Err HostFault.JournalFull ↔ MOST < vec_len entries.old + promised + 2 }
    ensures causes { IfErr result (λ fault. (fault ≡ HostFault.JournalFull) ⊎ (fault ≡ HostFault.NoMemory)) }
{
    if MOST < entries.len() + promised + 2 {
        return Err(HostFault::JournalFull);
    }
    if entries.reserve(promised + 2).is_err() {
        return Err(HostFault::NoMemory);
    }
    Ok(())
}
