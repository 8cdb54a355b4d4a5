ghost use Rattle.std.specs.Prelude.{◌≡◌, ◌↔◌, ◌≤◌, ◌<◌, ◌^◌, [], true, false, IsTrue, None, Some, is_some};
ghost use Rattle.disk.specs.Cut.{IsInFirst};
ghost use Rattle.torn_block.specs.Layout.{cluster_version};
ghost use Rattle.paxos_block.specs.Places.{image_length};
ghost use Rattle.world.specs.World.{opening_disk};
ghost use Rattle.cluster_tie.specs.Parts.{own_of};
ghost use Rattle.cluster.specs.Book.{answer_in, disk_in, image_on, Makes};
ghost use Rattle.host.specs.Host.{idles};
ghost use Rattle.cluster.specs.Seat.{host_in, due_in};

use crate::cluster_name::ClusterName;
use crate::seat::HostSeat;
use crate::touched::{CallOutcome, Touched};
use attempt::DeviceCall;
use cluster_tie::DiskTie;
use disk::{Disk, SimDisk};
use std::marker::Model;
use torn_block::ROW_LENGTH;

/// A disk, and the call on it that is not in the journal yet, if there is one. If the disk is larger than an image, contracts
/// see only the image, at its start.
#[derive(Drop)]
pub struct DiskBook<N: ClusterName, D: Disk> {
    pub(crate) number: u8,
    pub(crate) disk: D,
    pub(crate) row: [u8; ROW_LENGTH],
    pub(crate) open_call: Option<CallOutcome>,
    pub(crate) tie: DiskTie<N>,
}

impl<N: ClusterName, D: Disk> Model for DiskBook<N, D> {
    ghost use Rattle.std.specs.Prelude.{◌≡◌};
    ghost use Rattle.disk.specs.Cut.{HasFirst};
    ghost use Rattle.torn_block.specs.Layout.{cluster_version};
    ghost use Rattle.paxos_block.specs.Places.{image_length};
    ghost use Rattle.cluster.specs.Book.{BookState, IsBook, image_on};

    ghost Value = { BookState D };

    ghost view = { λ b. record { own = b.tie; medium = b.disk; device = D.device b.disk; disk = image_on N.shape (D.state b.disk); open_call = b.open_call; row = b.row } };

    ghost invariant = { λ b. record {
      number : b.tie.number ≡ b.number;
      whole : HasFirst (image_length cluster_version N.shape.slots) (D.state b.disk);
      so : IsBook N.shape (record { own = b.tie; medium = b.disk; device = D.device b.disk; disk = image_on N.shape (D.state b.disk); open_call = b.open_call; row = b.row });
    } };
}

impl<N: ClusterName, D: Disk> DiskBook<N, D> {
    // The book of a disk with a fresh image.
    #[tactic(auto, using(crate::proofs::Imaged::opened))]
    pub(crate) fn new(number: u8, disk: D, tie: DiskTie<N>) -> DiskBook<N, D>
        requires tie { tie ≡ own_of number [] }
        requires number { number < N.shape.disks }
        requires tells { IsTrue (D.device disk).tells }
        requires large { image_length cluster_version N.shape.slots ≤ (D.device disk).size }
        requires fresh { image_on N.shape (D.state disk) ≡ opening_disk N.shape }
        ensures own { result.own ≡ own_of number [] }
        ensures closed { result.open_call ≡ None }
    {
        DiskBook {
            number,
            disk,
            row: [0; ROW_LENGTH],
            open_call: None,
            tie,
        }
    }

    /// The disk's number.
    pub fn number(&self) -> u8
        ensures { result ≡ self.now.own.number }
    {
        self.number
    }

    /// Whether a call is open.
    pub fn is_pending(&self) -> bool
        ensures { result ≡ is_some self.now.open_call }
    {
        self.open_call.is_some()
    }

    /// Makes the host's next device call. It is open until it is committed.
    pub fn touch(&mut self, seat: &HostSeat<N>) -> Touched
        requires closed { self.old.open_call ≡ None }
        requires busy { idles (host_in N.shape seat.now) ≡ false }
        requires disk { (due_in N.shape seat.now).0 ≡ self.old.own.number }
        // Before the call the disk was what its entries leave. This call, with this answer, made it what it is now.
        ensures made { Makes N.shape seat.now self.new.own.number (answer_in result.outcome self.new.row) (disk_in N.shape self.new.own) self.new.disk }
        ensures was { self.old.disk ≡ disk_in N.shape self.old.own }
        // It is one call of the disk.
        ensures one { D.gives self.old.medium (due_in N.shape seat.now).1 (answer_in result.outcome self.new.row) self.new.medium }
        ensures pending { self.new.open_call ≡ Some result.outcome }
        ensures same { (self.new.own ≡ self.old.own) × (self.new.device ≡ self.old.device) }
    {
        let outcome = make(&mut self.disk, &mut self.row, seat);
        self.open_call = Some(outcome);
        Touched { outcome }
    }
}

impl<N: ClusterName> DiskBook<N, SimDisk> {
    /// Whether the disk is there still, and may crash once more.
    pub fn may_crash(&self) -> bool
        ensures { result ≡ true ↔ (self.now.disk.gone ≡ false) × (self.now.disk.boot < 2 ^ 62) }
    {
        self.disk.may_crash()
    }

    /// Whether the disk is lost.
    pub fn is_lost(&self) -> bool
        ensures { result ≡ self.now.disk.gone }
    {
        self.disk.is_lost()
    }
}

// Makes the host's next device call on a disk. Not by `attempt::answer_of`: its contract says neither which step the disk's bytes
// take, nor what is in the row after the answer is dropped.
fn make<N: ClusterName, D: Disk>(
    disk: &mut D,
    row: &mut [u8; ROW_LENGTH],
    seat: &HostSeat<N>,
) -> CallOutcome
    requires busy { idles (host_in N.shape seat.now) ≡ false }
    requires tells { IsTrue (D.device disk.old).tells }
    requires large { image_length cluster_version N.shape.slots ≤ (D.device disk.old).size }
    ensures made { Makes N.shape seat.now (due_in N.shape seat.now).0 (answer_in result row.new) (D.state disk.old) (D.state disk.new) }
    // It stays within the image.
    ensures within { IsInFirst (image_length cluster_version N.shape.slots) (due_in N.shape seat.now).1 }
    ensures one { D.gives disk.old (due_in N.shape seat.now).1 (answer_in result row.new) disk.new }
    ensures device { D.device disk.new ≡ D.device disk.old }
{
    match seat.call().call {
        DeviceCall::Attach => match disk.attach() {
            Ok(boot) => CallOutcome::Booted(boot),
            Err(fault) => CallOutcome::Fault(fault),
        },
        DeviceCall::Read { boot, at } => {
            let told = disk.read(boot, at, row);
            CallOutcome::of(told, CallOutcome::Told)
        }
        DeviceCall::Write { boot, at, bytes } => {
            let done = disk.write(boot, at, bytes);
            CallOutcome::of(done, CallOutcome::Done)
        }
        DeviceCall::Sync { boot } => CallOutcome::of(disk.sync(boot), CallOutcome::Done),
    }
}
