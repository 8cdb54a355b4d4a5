ghost use Rattle.std.specs.Prelude.{◌≡◌, ◌+◌, ◌≤◌, ◌↔◌, IsTrue};
ghost use Rattle.attempt.specs.Heard.{Fits};
ghost use Rattle.torn_block.specs.Layout.{cluster_version};
ghost use Rattle.attempt.specs.DeviceCalls.{IsWithin, answer_as, device_call_of, heard_as};

use crate::heard::Heard;
use crate::need::DeviceCall;
use disk::Disk;
use torn_block::{Layout, ROW_LENGTH};

/// Makes a call on its disk, in a layout, and tells what the disk answered. A row that is read is in `row`.
// Inlined: else the call and the answer would each be written to memory and read back.
#[inline(always)]
pub fn answer_of<'a, L: Layout, D: Disk>(
    disk: &mut D,
    call: &DeviceCall<'_>,
    row: &'a mut L::Row,
) -> Heard<'a, L::Row>
    requires { IsWithin L.version (D.device disk.old).size call.now }
    ensures fits { Fits (device_call_of L.version call.now) (heard_as L.version L.row_bytes result) }
    ensures gave { D.gives disk.old (device_call_of L.version call.now) (answer_as L.row_bytes result) disk.new }
    ensures device { D.device disk.new ≡ D.device disk.old }
{
    match call {
        DeviceCall::Attach => match disk.attach() {
            Ok(boot) => Heard::Booted(boot),
            Err(fault) => Heard::Fault(fault),
        },
        DeviceCall::Sync { boot } => match disk.sync(*boot) {
            Ok(()) => Heard::Done,
            Err(fault) => Heard::Fault(fault),
        },
        DeviceCall::Write { boot, at, bytes } => match disk.write(*boot, *at, bytes) {
            Ok(()) => Heard::Done,
            Err(fault) => Heard::Fault(fault),
        },
        DeviceCall::Read { boot, at } => match L::read_row(disk, *boot, *at, row) {
            Ok(()) => Heard::Told(row),
            Err(fault) => Heard::Fault(fault),
        },
    }
}

/// Whether the range of a call, in the cluster's layout, ends on a disk of so many bytes.
pub fn is_within(size: u64, call: &DeviceCall<'_>) -> bool
    ensures { IsTrue result ↔ IsWithin cluster_version size call.now }
{
    match call {
        DeviceCall::Attach | DeviceCall::Sync { .. } => true,
        DeviceCall::Read { at, .. } => ends_by(size, *at, ROW_LENGTH as u64),
        DeviceCall::Write { at, bytes, .. } => ends_by(size, *at, bytes.len() as u64),
    }
}

fn ends_by(size: u64, at: u64, length: u64) -> bool
    ensures { IsTrue result ↔ (at + length ≤ size) }
{
    length <= size && at <= size - length
}
