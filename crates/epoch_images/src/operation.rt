ghost use Rattle.std.specs.Prelude.{◌≡◌, ◌≤◌, ◌<◌, ℕ, true, false, Some, None, IsSome, length, slice_get, slice_index};
ghost use Rattle.disk.specs.Disk.{Fault};
ghost use Rattle.torn_block.specs.Layout.{cluster_version};
ghost use Rattle.torn_block.specs.declared.layout.TheConstants.{DISKS};
ghost use Rattle.paxos_block.specs.Shape.{Shape};
ghost use Rattle.attempt.specs.Heard.{Fits};
ghost use Rattle.attempt.specs.DeviceCalls.{IsWithin, device_answer, device_call_of, heard_of};
ghost use Rattle.dlm_images.specs.Operations.{GaveOne};
ghost use Rattle.epoch_deeds.specs.Deeds.{Deeds};
ghost use Rattle.epoch_host.specs.Ending.{TableIsThere};
ghost use Rattle.epoch_host.specs.Leading.{LeadsTo};
ghost use Rattle.epoch_host.specs.Walking.{IsSame, MayBegin};
ghost use Rattle.epoch_images.specs.Working.{HasWorked, RunsBefore, room_of, said_of};

use crate::fault::EpochFault;
use attempt::{Heard, Need, Refusal};
use disk::{Disk, DiskFault};
use dlm_images::answer_among;
use epoch_host::{EpochAnswer, EpochHost, EpochTask};
use paxos_block::Config;
use std::alloc::Global;
use torn_block::{ClusterLayout, DISKS, ROW_LENGTH};

/// No task makes as many calls. How many one makes at most is not proved, and each loop is to end.
const MOST_CALLS: u64 = 1 << 40;

/// Carries a task out: begins it, and makes its calls on the disks until it has ended. A host that is still busy then is stopped and started anew, and knows
/// nothing.
///
/// On each disk it works from the first epoch on in which the disk takes part. In an epoch before, no call is made there: the host hears that the device failed.
pub fn drive<D: Disk>(
    host: &mut EpochHost,
    disks: &mut [D],
    firsts: &[u64; DISKS as usize],
    alloc: Global,
    config: Config,
    task: EpochTask,
) -> Result<EpochAnswer, EpochFault>
    requires idle { host.old.task ≡ None }
    requires may { MayBegin host.old.host task }
    requires config { config ≡ host.old.config }
    requires as_many { length disks.old ≡ host.old.config.disks }
    requires large { (k : ℕ) (d : D) → slice_get disks.old k ≡ Some d →
        room_of host.old.config ≤ (D.device d).size }
    ensures worked { HasWorked D.gives task (said_of result) (record { host = host.old; disks = disks.old; firsts = firsts.now })
        (record { host = host.new; disks = disks.new; firsts = firsts.now }) }
    ensures there { TableIsThere host.new (said_of result) }
    ensures idle { host.new.task ≡ None }
    ensures same { IsSame host.old host.new }
    ensures large { (k : ℕ) (d : D) → slice_get disks.new k ≡ Some d →
        room_of host.old.config ≤ (D.device d).size }
{
    // Called for its contract only: there are no more disks than first epochs.
    let _few = config.disks();
    host.begin(task)?;
    let mut row = [0; ROW_LENGTH];
    for _made in 0..MOST_CALLS {
        if host.idle() {
            return Ok(answered(host));
        }
        let need = host.call();
        let lost = takes_no_part(host, firsts, need.disk);
        let heard = answer_unless(lost, disks, &need, &mut row);
        host.hear(&heard)?;
    }
    let number = host.host();
    *host = EpochHost::new(alloc, number, config);
    Err(EpochFault::Refused(Refusal::Outrun))
}

/// Whether the disk takes no part yet in the epoch where the host is. One that looks for the newest epoch is in none.
fn takes_no_part(host: &EpochHost, firsts: &[u64; DISKS as usize], disk: u8) -> bool
    requires { disk < DISKS }
    ensures none { result ≡ true → (c : Shape) (h : ℕ) (deeds : Deeds) → LeadsTo c h deeds host.now →
        RunsBefore c h (slice_index firsts.now disk) deeds }
    ensures part { result ≡ false → (c : Shape) (h : ℕ) (deeds : Deeds) → LeadsTo c h deeds host.now →
        RunsBefore c h (slice_index firsts.now disk) deeds → ⊥ }
{
    let first = firsts[usize::from(disk)];
    match host.epoch() {
        Some(epoch) => epoch < first,
        None => false,
    }
}

/// Makes the call that is due, and tells what its disk answered; or makes none, and tells that the device failed. To the disk that is no difference.
fn answer_unless<'a, D: Disk>(
    lost: bool,
    disks: &mut [D],
    need: &Need<'_>,
    row: &'a mut [u8; ROW_LENGTH],
) -> Heard<'a>
    requires there { need.now.disk < length disks.old }
    requires range { (k : ℕ) (d : D) → slice_get disks.old k ≡ Some d → IsWithin cluster_version (D.device d).size need.now.call }
    ensures fits { Fits (device_call_of cluster_version need.now.call) (heard_of cluster_version result) }
    ensures gave { lost ≡ false → GaveOne D.gives disks.old
        (record { disk = need.now.disk; call = device_call_of cluster_version need.now.call; answer = device_answer result }) disks.new }
    ensures lost { lost ≡ true → (disks.new ≡ disks.old) × (device_answer result ≡ Fault DiskFault.Failed) }
    ensures large { (size : ℕ) → ((k : ℕ) (d : D) → slice_get disks.old k ≡ Some d → size ≤ (D.device d).size) →
        (k : ℕ) (d : D) → slice_get disks.new k ≡ Some d → size ≤ (D.device d).size }
{
    if lost {
        return Heard::Fault(DiskFault::Failed);
    }
    answer_among::<ClusterLayout, D>(disks, need, row)
}

/// What the host said.
fn answered(host: &EpochHost) -> EpochAnswer
    requires { IsSome host.now.said }
    ensures { host.now.said ≡ Some result }
{
    match host.answer() {
        Some(answer) => answer,
        None => unreachable!(),
    }
}
