ghost use Rattle.std.specs.Prelude.{◌≡◌, ◌<◌, IfSome, None, length};
ghost use Rattle.disk.specs.Disk.{Write};
ghost use Rattle.torn_block.specs.Layout.{cluster_version};
ghost use Rattle.torn_block.specs.declared.layout.TheConstants.{COPY_LENGTH};
ghost use Rattle.std.specs.Option.{option_map};
ghost use Rattle.attempt.specs.History.{Fits};
ghost use Rattle.attempt.specs.DeviceCalls.{device_answer, call_of_need, device_call_of, heard_of};
ghost use Rattle.c_host.specs.Calls.{TellsDue, IsTooLong, plain_call, no_call, answer_in, success_in};

use attempt::{DeviceCall, Heard, Need};
use disk::{Boot, DiskFault};
use torn_block::{COPY_LENGTH, ROW_LENGTH};

/// A device call that is due, as C is told it. A field that the kind of call has no use for is 0.
#[repr(C)]
#[derive(Clone, Copy, Drop)]
pub struct DueCall {
    pub boot: u64,
    /// Where the range begins, in bytes from the image's start.
    pub at: u64,
    /// How many bytes the range has.
    pub length: u64,
    /// 0 none, 1 attach, 2 sync, 3 read, 4 write.
    pub kind: u32,
    pub disk: u32,
}

/// Room for what C writes: as much of it as the call's range is long.
// This is apart from `DueCall`, so that a call which writes nothing copies none of these bytes.
#[repr(C)]
#[derive(Clone, Copy, Drop)]
pub struct Written {
    pub bytes: [u8; COPY_LENGTH],
}

impl DueCall {
    /// No call.
    pub fn none() -> DueCall
        ensures { result ≡ no_call }
    {
        DueCall::plain(0, 0, 0)
    }

    /// The call that is due, unless it writes more bytes than there is room for.
    pub fn of(need: &Need<'_>, written: &mut Written) -> Option<DueCall>
        ensures told { IfSome result (λ view.
            TellsDue view written.old.bytes written.new.bytes (call_of_need cluster_version need.now)) }
        ensures long { result ≡ None → IsTooLong (call_of_need cluster_version need.now).1 }
        ensures untold { result ≡ None → written.new.bytes ≡ written.old.bytes }
    {
        let disk = u32::from(need.disk);
        match &need.call {
            DeviceCall::Attach => Some(DueCall::plain(1, disk, 0)),
            DeviceCall::Sync { boot } => Some(DueCall::plain(2, disk, boot.number)),
            DeviceCall::Read { boot, at } => Some(DueCall {
                at: *at,
                length: ROW_LENGTH as u64,
                ..DueCall::plain(3, disk, boot.number)
            }),
            DeviceCall::Write { boot, at, bytes } => {
                DueCall::write(disk, *boot, *at, bytes, written)
            }
        }
    }

    fn plain(kind: u32, disk: u32, boot: u64) -> DueCall
        ensures { result ≡ plain_call kind disk boot }
    {
        DueCall {
            boot,
            at: 0,
            length: 0,
            kind,
            disk,
        }
    }

    fn write(disk: u32, boot: Boot, at: u64, from: &[u8], written: &mut Written) -> Option<DueCall>
        ensures told { IfSome result (λ view. TellsDue view written.old.bytes written.new.bytes (disk, Write boot.number at from.now)) }
        ensures long { result ≡ None → COPY_LENGTH < length from.now }
        ensures untold { result ≡ None → written.new.bytes ≡ written.old.bytes }
    {
        let long = from.len();
        if long > COPY_LENGTH {
            return None;
        }
        written.bytes[..long].copy_from_slice(from);
        Some(DueCall {
            at,
            length: long as u64,
            ..DueCall::plain(4, disk, boot.number)
        })
    }
}

/// Room for what C reads.
#[repr(C)]
#[derive(Clone, Copy, Drop)]
pub struct Row {
    pub bytes: [u8; ROW_LENGTH],
}

/// What C says that a device call was answered.
#[repr(C)]
#[derive(Clone, Copy, Drop)]
pub struct ToldAnswer {
    /// The boot number of every disk: that by which an attach is answered.
    pub boot: u64,
    /// 0 it was carried out; else the number of the fault: 1 reset, 2 failed, 3 gone.
    pub outcome: u32,
    pub unused: u32,
}

impl ToldAnswer {
    /// The answer to this call. What was read is in the row.
    pub fn heard<'a>(&self, call: &DeviceCall<'_>, row: &'a Row) -> Option<Heard<'a>>
        ensures told { option_map device_answer result ≡
            answer_in (device_call_of cluster_version call.now) self.now row.now.bytes }
        ensures fits { IfSome result (λ heard.
            Fits (device_call_of cluster_version call.now) (heard_of cluster_version heard)) }
    {
        match self.outcome {
            0 => Some(self.success(call, row)),
            1 => Some(Heard::Fault(DiskFault::Reset)),
            2 => Some(Heard::Fault(DiskFault::Failed)),
            3 => Some(Heard::Fault(DiskFault::Gone)),
            _ => None,
        }
    }

    fn success<'a>(&self, call: &DeviceCall<'_>, row: &'a Row) -> Heard<'a>
        ensures told { device_answer result ≡
            success_in (device_call_of cluster_version call.now) self.now.boot row.now.bytes }
        ensures fits { Fits (device_call_of cluster_version call.now) (heard_of cluster_version result) }
    {
        match call {
            DeviceCall::Attach => Heard::Booted(Boot { number: self.boot }),
            DeviceCall::Sync { .. } | DeviceCall::Write { .. } => Heard::Done,
            DeviceCall::Read { .. } => Heard::Told(&row.bytes),
        }
    }
}
