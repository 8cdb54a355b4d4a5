ghost use Rattle.std.specs.Prelude.{◌≡◌, ◌≤◌, ◌<◌, ℕ, true, Some, length, slice_get};
ghost use Rattle.torn_block.specs.Layout.{cluster_version};
ghost use Rattle.torn_block.specs.declared.layout.TheConstants.{DISKS, SLOTS};
ghost use Rattle.paxos_block.specs.Places.{image_length};
ghost use Rattle.attempt.specs.Heard.{Fits};
ghost use Rattle.attempt.specs.DeviceCalls.{IsWithin, answer_as, device_call_of, heard_as};
ghost use Rattle.host.specs.Kept.{is_idle};
ghost use Rattle.dlm_images.specs.Operations.{GaveOne, IsKnown, HasHeard};

use attempt::{Heard, Need, answer_of};
use disk::Disk;
use host::HostCore;
use torn_block::{ClusterLayout, DISKS, Layout, ROW_LENGTH, SLOTS};

/// No task makes more calls: each attempt of an operation makes 17 a disk at most, and learns a slot, or uses one of at most 255 tries,
/// or is the last. A beat or a marking makes 9 a disk at most, and a look 2 a disk for each slot.
const MOST_CALLS: u64 = (SLOTS as u64 + 256) * (19 * DISKS as u64);

/// Makes the calls of a host's task on its disks, until it has ended.
pub fn drive<D: Disk>(host: &mut HostCore, disks: &mut [D])
    requires known { IsKnown host.old }
    requires as_many { length disks.old ≡ host.old.learner.shape.disks }
    requires few { (length disks.old ≤ DISKS) × (host.old.learner.shape.slots ≤ SLOTS) }
    requires large { (k : ℕ) (d : D) → slice_get disks.old k ≡ Some d →
        image_length cluster_version host.old.learner.shape.slots ≤ (D.device d).size }
    ensures ended { is_idle host.new ≡ true }
    ensures shape { host.new.learner.shape ≡ host.old.learner.shape }
    ensures large { (k : ℕ) (d : D) → slice_get disks.new k ≡ Some d →
        image_length cluster_version host.old.learner.shape.slots ≤ (D.device d).size }
    ensures heard { HasHeard D.gives (record { core = host.old; disks = disks.old })
        (record { core = host.new; disks = disks.new }) }
{
    let mut row = [0; ROW_LENGTH];
    for _made in 0..MOST_CALLS {
        if host.idle() {
            return;
        }
        let need = host.call();
        let heard = answer_among::<ClusterLayout, D>(disks, &need, &mut row);
        host.hear(&heard);
    }
}

/// Makes the call that is due on its disk, and tells what that answered. A row that is read is in `row`.
#[inline(always)]
pub fn answer_among<'a, L: Layout, D: Disk>(
    disks: &mut [D],
    need: &Need<'_>,
    row: &'a mut L::Row,
) -> Heard<'a, L::Row>
    requires there { need.now.disk < length disks.old }
    requires range { (k : ℕ) (d : D) → slice_get disks.old k ≡ Some d →
        IsWithin L.version (D.device d).size need.now.call }
    ensures fits { Fits (device_call_of L.version need.now.call) (heard_as L.version L.row_bytes result) }
    ensures gave { GaveOne D.gives disks.old
        (record { disk = need.now.disk; call = device_call_of L.version need.now.call; answer = answer_as L.row_bytes result })
        disks.new }
    ensures large { (size : ℕ) → ((k : ℕ) (d : D) → slice_get disks.old k ≡ Some d → size ≤ (D.device d).size) →
        (k : ℕ) (d : D) → slice_get disks.new k ≡ Some d → size ≤ (D.device d).size }
{
    answer_of::<L, D>(&mut disks[usize::from(need.disk)], &need.call, row)
}
