ghost use Rattle.std.specs.Prelude.{◌≡◌, ◌<◌, is_some, length};
ghost use Rattle.disk.specs.Simulated.{refusal_of, failed_by};
ghost use Rattle.torn_block.specs.Layout.{cluster_version};
ghost use Rattle.attempt.specs.DeviceCalls.{device_call_of, IsWithin};
ghost use Rattle.migration.specs.Running.{is_write};

use attempt::DeviceCall;
use disk::SimDisk;

/// Whether a disk would refuse the call.
pub fn is_refused(disk: &SimDisk, call: &DeviceCall<'_>) -> bool
    ensures { result ≡
        is_some (refusal_of disk.now.disk (device_call_of cluster_version call.now)) }
{
    if disk.is_lost() {
        return true;
    }
    match call {
        DeviceCall::Attach => false,
        DeviceCall::Sync { boot }
        | DeviceCall::Read { boot, .. }
        | DeviceCall::Write { boot, .. } => boot.number != disk.boot(),
    }
}

/// A call fails, or is torn: the range of a write takes the given bytes.
pub fn spoil(disk: &mut SimDisk, call: &DeviceCall<'_>, given: &[u8])
    requires range { IsWithin cluster_version (length disk.old.disk.bytes) call.now }
    requires given { 0 < length given.now }
    ensures { disk.new ≡
        record disk.old { disk = failed_by disk.old.disk (device_call_of cluster_version call.now) given.now } }
{
    if let DeviceCall::Write { at, bytes, .. } = call {
        disk.tear(*at, bytes.len() as u64, given);
    }
}

/// Whether the call is a write.
pub fn is_write(call: &DeviceCall<'_>) -> bool
    ensures { result ≡ is_write (device_call_of cluster_version call.now) }
{
    match call {
        DeviceCall::Write { .. } => true,
        DeviceCall::Attach | DeviceCall::Sync { .. } | DeviceCall::Read { .. } => false,
    }
}
