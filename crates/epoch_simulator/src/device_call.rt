ghost use Rattle.std.specs.Prelude.{◌≡◌, ◌<◌, is_none, length};
ghost use Rattle.disk.specs.Disk.{FailureLeaves};
ghost use Rattle.disk.specs.Simulated.{failed_by, outcome, refusal_of};
ghost use Rattle.torn_block.specs.Layout.{cluster_version};
ghost use Rattle.attempt.specs.Heard.{Fits};
ghost use Rattle.attempt.specs.DeviceCalls.{IsWithin, device_answer, device_call_of, heard_of};
ghost use Rattle.epoch_simulator.specs.Doing.{is_write};

use attempt::{DeviceCall, Heard, answer_of};
use disk::SimDisk;
use torn_block::{ClusterLayout, ROW_LENGTH};

/// Makes a call on a disk.
pub fn make<'a>(
    disk: &mut SimDisk,
    call: &DeviceCall<'_>,
    row: &'a mut [u8; ROW_LENGTH],
) -> Heard<'a>
    requires { IsWithin cluster_version (length disk.old.disk.bytes) call.now }
    ensures gave { (disk.new, device_answer result) ≡ outcome disk.old (device_call_of cluster_version call.now) }
    ensures fits { Fits (device_call_of cluster_version call.now) (heard_of cluster_version result) }
    ensures size { length disk.new.disk.bytes ≡ length disk.old.disk.bytes }
{
    answer_of::<ClusterLayout, _>(disk, call, row)
}

/// Whether the disk does not refuse the call.
pub fn takes(disk: &SimDisk, call: &DeviceCall<'_>) -> bool
    ensures { result ≡ is_none (refusal_of disk.now.disk (device_call_of cluster_version call.now)) }
{
    match call {
        DeviceCall::Attach => !disk.is_lost(),
        DeviceCall::Sync { boot }
        | DeviceCall::Read { boot, .. }
        | DeviceCall::Write { boot, .. } => !disk.is_lost() && boot.number == disk.boot(),
    }
}

/// A call fails, or its host ends within it: the range of a write takes the given bytes.
pub fn spoil(disk: &mut SimDisk, call: &DeviceCall<'_>, given: &[u8])
    requires range { IsWithin cluster_version (length disk.old.disk.bytes) call.now }
    requires given { 0 < length given.now }
    ensures disk { disk.new ≡
        record disk.old { disk = failed_by disk.old.disk (device_call_of cluster_version call.now) given.now } }
    ensures leaves { FailureLeaves (device_call_of cluster_version call.now) disk.old.disk disk.new.disk }
    ensures size { length disk.new.disk.bytes ≡ length disk.old.disk.bytes }
{
    if let DeviceCall::Write { at, bytes, .. } = call {
        disk.tear(*at, bytes.len() as u64, given);
    }
}

/// Whether the call is a write.
pub fn is_write(call: &DeviceCall<'_>) -> bool
    ensures { result ≡ is_write (device_call_of cluster_version call.now) }
{
    match call {
        DeviceCall::Write { .. } => true,
        DeviceCall::Attach | DeviceCall::Sync { .. } | DeviceCall::Read { .. } => false,
    }
}
