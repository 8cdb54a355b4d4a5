ghost use Rattle.std.specs.Prelude.{◌≡◌, ◌≢◌, ◌↔◌, ◌<◌, [], ℕ, true, false, Err, IsTrue, IfOk, IfErr};
ghost use Rattle.torn_block.specs.declared.layout.TheConstants.{HOSTS};
ghost use Rattle.world.specs.Plain.{plains};
ghost use Rattle.world.specs.World.{IsFreshRun};
ghost use Rattle.cluster_tie.specs.Parts.{of_host};
ghost use Rattle.cluster.specs.Record.{ArePartsOf, HasSeat, LacksSeat, AreNotAll, IsRecord};

use crate::cluster::Cluster;
use crate::cluster_name::ClusterName;
use crate::fault::HostFault;
use crate::journal::Journal;
use crate::seat::HostSeat;
use disk::Disk;
use torn_block::HOSTS;
use world::Entry;
use world_safety::one_log_and_nothing_lost;

/// What is left of a cluster: all entries, and the seats, with their receipts and tables.
#[derive(Drop)]
pub struct Record<N: ClusterName> {
    pub entries: Vec<Entry>,
    pub seats: Vec<HostSeat<N>>,
}

impl<'a, N: ClusterName, D: Disk + Drop> Cluster<'a, N, D> {
    /// The journal, and the seats, whose lists are its parts. Refused where a host was started whose seat is not among these.
    pub fn finish(self, seats: Vec<HostSeat<N>>) -> Result<Record<N>, HostFault>
        ensures same { IfOk result (λ r. r.seats.items ≡ seats.items) }
        ensures record { IfOk result (λ r. IsRecord N.shape r.entries.items r.seats.items) }
        ensures cause { IfErr result (λ fault. fault ≡ HostFault.SeatsMissing) }
        // A clause cannot speak of what a lock guards. So it says that some run has these seats' lists and a started host without a
        // seat here. That is impossible if all hosts have a seat here.
        ensures missing { IfErr result (λ _. AreNotAll N.shape seats.items) }
    {
        let Cluster {
            books: _,
            journal,
            slots: _,
        } = self;
        journal.into_inner().finish(seats)
    }
}

impl<'a, N: ClusterName> Journal<'a, N> {
    // What is left, once nobody needs the journal any more.
    fn finish(self, seats: Vec<HostSeat<N>>) -> Result<Record<N>, HostFault>
        ensures same { IfOk result (λ r. r.seats.items ≡ seats.items) }
        ensures record { IfOk result (λ r. IsRecord N.shape r.entries.items r.seats.items) }
        ensures cause { IfErr result (λ fault. fault ≡ HostFault.SeatsMissing) }
        ensures missing { result ≡ Err HostFault.SeatsMissing ↔ LacksSeat self.entry.log seats.items }
        ensures run { IsFreshRun N.shape self.entry.log }
        ensures parts { ArePartsOf self.entry.log seats.items }
    {
        let mut journal = self;
        let mut seats = seats;
        meet_all(&mut journal, seats.as_mut_slice());
        let covered = journal.is_covered(seats.as_slice());
        let entries = journal.into_entries();
        if !covered {
            return Err(HostFault::SeatsMissing);
        }
        one_log_and_nothing_lost();
        Ok(Record { entries, seats })
    }

    // Whether each host that has started has a seat among these.
    fn is_covered(&mut self, seats: &[HostSeat<N>]) -> bool
        ensures same { self.new ≡ self.old }
        ensures covered { result ≡ true → (h : ℕ) → h < HOSTS → of_host h self.old.log ≢ [] → HasSeat seats.now h }
        ensures lacking { result ≡ false → LacksSeat self.old.log seats.now }
    {
        for host in 0..HOSTS {
            if !self.waits(host) && !has_seat(seats, host) {
                return false;
            }
        }
        true
    }

    // The entries, once nobody needs the journal any more.
    fn into_entries(self) -> Vec<Entry>
        ensures entries { result.items ≡ plains self.entry.log }
        ensures run { IsFreshRun N.shape self.entry.log }
    {
        let Journal {
            config: _,
            ties: _,
            tie: _,
            entries,
            promised: _,
            promises: _,
            pool: _,
            hosts: _,
        } = self;
        entries
    }
}

// Whether the host has a seat among these.
fn has_seat<N: ClusterName>(seats: &[HostSeat<N>], host: usize) -> bool
    ensures { IsTrue result ↔ HasSeat seats.now host }
{
    seats
        .iter()
        .any(|seat| usize::from(seat.host().get()) == host)
}

fn meet<N: ClusterName>(journal: &mut Journal<'_, N>, seat: &mut HostSeat<N>)
    ensures same { (journal.new ≡ journal.old) × (seat.new ≡ seat.old) }
    ensures part { seat.old.entries ≡ of_host seat.old.number journal.old.log }
{
    journal.ties.meet_host(&mut journal.tie, &mut seat.tie);
}

// Each seat meets the journal.
fn meet_all<N: ClusterName>(journal: &mut Journal<'_, N>, seats: &mut [HostSeat<N>])
    ensures same { (journal.new ≡ journal.old) × (seats.new ≡ seats.old) }
    ensures parts { ArePartsOf journal.old.log seats.old }
{
    for seat in seats.iter_mut() {
        meet(journal, seat);
    }
}
