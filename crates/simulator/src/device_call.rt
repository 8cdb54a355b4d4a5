ghost use Rattle.std.specs.Prelude.{◌≡◌, ◌<◌, [], None, length};
ghost use Rattle.disk.specs.Disk.{Fault};
ghost use Rattle.disk.specs.declared.fault.DiskFault.TheVariants.{Failed};
ghost use Rattle.disk.specs.Simulated.{refusal_of};
ghost use Rattle.attempt.specs.History.{Fits};
ghost use Rattle.torn_block.specs.Layout.{cluster_version};
ghost use Rattle.attempt.specs.DeviceCalls.{device_answer, device_call_of, heard_of, IsWithin};
ghost use Rattle.world.specs.Entry.{called_by};
ghost use Rattle.world.specs.Happens.{answer_of, spread_over};
ghost use Rattle.simulator.specs.Calls.{is_write, may_crash, crashed_if, lost_if};

use attempt::{DeviceCall, Heard, answer_of};
use disk::{Disk, DiskFault, SimDisk};
use torn_block::{ClusterLayout, ROW_LENGTH};

/// Makes a call on a disk.
pub fn make<'a>(
    disk: &mut SimDisk,
    call: &DeviceCall<'_>,
    row: &'a mut [u8; ROW_LENGTH],
) -> Heard<'a>
    requires calm { disk.old.failing ≡ None }
    requires range { IsWithin cluster_version (length disk.old.disk.bytes) call.now }
    ensures answer { device_answer result ≡
        answer_of disk.old.disk (device_call_of cluster_version call.now) }
    ensures fits { Fits (device_call_of cluster_version call.now) (heard_of cluster_version result) }
    ensures disk { disk.new ≡
        record disk.old { disk = called_by disk.old.disk (device_call_of cluster_version call.now) (answer_of disk.old.disk (device_call_of cluster_version call.now)) [] } }
    ensures size { length disk.new.disk.bytes ≡ length disk.old.disk.bytes }
{
    answer_of::<ClusterLayout, _>(disk, call, row)
}

/// Why a disk would refuse a call, if it would. An attach finds it out, which changes nothing.
pub fn refusal_of(disk: &mut SimDisk, call: &DeviceCall<'_>) -> Option<DiskFault>
    requires calm { disk.old.failing ≡ None }
    ensures refusal { result ≡ refusal_of disk.old.disk (device_call_of cluster_version call.now) }
    ensures same { disk.new ≡ disk.old }
{
    let now = match disk.attach() {
        Ok(boot) => boot.number,
        Err(fault) => return Some(fault),
    };
    match call {
        DeviceCall::Attach => None,
        DeviceCall::Sync { boot }
        | DeviceCall::Read { boot, .. }
        | DeviceCall::Write { boot, .. } => {
            if boot.number == now {
                None
            } else {
                Some(DiskFault::Reset)
            }
        }
    }
}

/// A call fails, or is torn: the range of a write takes the given bytes.
pub fn spoil(disk: &mut SimDisk, call: &DeviceCall<'_>, given: &[u8])
    requires range { IsWithin cluster_version (length disk.old.disk.bytes) call.now }
    requires given { 0 < length given.now }
    ensures size { length disk.new.disk.bytes ≡ length disk.old.disk.bytes }
    ensures disk { disk.new ≡
        record disk.old { disk = called_by disk.old.disk (device_call_of cluster_version call.now) (Fault Failed) (spread_over (device_call_of cluster_version call.now) given.now) } }
{
    if let DeviceCall::Write { at, bytes, .. } = call {
        disk.tear(*at, bytes.len() as u64, given);
    }
}

/// Whether the call is a write.
pub fn is_write(call: &DeviceCall<'_>) -> bool
    ensures { result ≡ is_write (device_call_of cluster_version call.now) }
{
    match call {
        DeviceCall::Write { .. } => true,
        DeviceCall::Attach | DeviceCall::Sync { .. } | DeviceCall::Read { .. } => false,
    }
}

/// A disk that is there crashes, unless its boot number is the last one.
pub fn crash_disk(disk: &mut SimDisk, given: &[u8])
    requires given { 0 < length given.now }
    ensures disk { disk.new ≡ crashed_if (may_crash disk.old.disk) disk.old given.now }
    ensures size { length disk.new.disk.bytes ≡ length disk.old.disk.bytes }
{
    if disk.may_crash() {
        disk.crash(given);
    }
}

/// A disk that is there is lost.
pub fn lose_disk(disk: &mut SimDisk)
    ensures { disk.new ≡ lost_if disk.old.disk.gone disk.old }
{
    if !disk.is_lost() {
        disk.lose();
    }
}
