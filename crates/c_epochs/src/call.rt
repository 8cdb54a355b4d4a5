ghost use Rattle.std.specs.Prelude.{◌≡◌, ◌≤◌, ◌<◌, ◌+◌, ℕ, IfSome, None, length};
ghost use Rattle.disk.specs.Disk.{Write};
ghost use Rattle.torn_block.specs.Layout.{cluster_version};
ghost use Rattle.torn_block.specs.declared.layout.TheConstants.{BLOCK_LENGTH};
ghost use Rattle.attempt.specs.DeviceCalls.{IsWithin, call_of_need};
ghost use Rattle.attempt.specs.Looking.{OnlyReads};
ghost use Rattle.c_host.specs.Calls.{TellsDue, plain_call};
ghost use Rattle.c_host.specs.Numbers.{done};
ghost use Rattle.c_epochs.specs.Calls.{IsTooLong, ReadsOnly, TellsCallDue, call_away, is_before};

use attempt::{DeviceCall, Need};
use c_host::{DueCall, NO_ROOM};
use disk::Boot;
use torn_block::{BLOCK_LENGTH, ROW_LENGTH};

/// Room for what C writes: as much of it as the call's range is long. A host that comes to an epoch clears its blocks, each whole.
#[repr(C)]
#[derive(Clone, Copy, Drop)]
pub struct WrittenBlock {
    pub bytes: [u8; BLOCK_LENGTH],
}

/// Tells a call, unless it writes more bytes than there is room for.
pub fn tell(need: &Need<'_>, call: &mut DueCall, written: &mut WrittenBlock) -> i32
    ensures told { TellsCallDue (call_of_need cluster_version need.now) call.new written.old.bytes written.new.bytes result }
    ensures disk { result ≡ done → call.new.disk ≡ need.now.disk }
    ensures within { result ≡ done → (n : ℕ) → IsWithin cluster_version n need.now.call → call.new.at + call.new.length ≤ n }
    ensures reads { OnlyReads (call_of_need cluster_version need.now).1 → result ≡ done → ReadsOnly call.new }
{
    match due_of(need, written) {
        Some(due) => {
            *call = due;
            0
        }
        None => {
            *call = DueCall::none();
            NO_ROOM
        }
    }
}

/// Whether a disk with this first epoch takes no part yet in the epoch where a host is. One that is in none asks each disk.
pub fn is_before(epoch: Option<u64>, first: u64) -> bool
    ensures { result ≡ is_before epoch first }
{
    match epoch {
        Some(epoch) => epoch < first,
        None => false,
    }
}

/// No call is to be made, since this disk takes no part yet. Whatever C answers, the host hears that a call failed.
pub fn away(disk: u8) -> DueCall
    ensures { result ≡ call_away disk }
{
    plain(5, u32::from(disk), 0)
}

fn due_of(need: &Need<'_>, written: &mut WrittenBlock) -> Option<DueCall>
    ensures told { IfSome result (λ view.
        TellsDue view written.old.bytes written.new.bytes (call_of_need cluster_version need.now)) }
    ensures long { result ≡ None → IsTooLong (call_of_need cluster_version need.now).1 }
    ensures untold { result ≡ None → written.new.bytes ≡ written.old.bytes }
{
    let disk = u32::from(need.disk);
    match &need.call {
        DeviceCall::Attach => Some(plain(1, disk, 0)),
        DeviceCall::Sync { boot } => Some(plain(2, disk, boot.number)),
        DeviceCall::Read { boot, at } => Some(DueCall {
            at: *at,
            length: ROW_LENGTH as u64,
            ..plain(3, disk, boot.number)
        }),
        DeviceCall::Write { boot, at, bytes } => write(disk, *boot, *at, bytes, written),
    }
}

fn plain(kind: u32, disk: u32, boot: u64) -> DueCall
    ensures { result ≡ plain_call kind disk boot }
{
    DueCall {
        boot,
        at: 0,
        length: 0,
        kind,
        disk,
    }
}

fn write(disk: u32, boot: Boot, at: u64, from: &[u8], written: &mut WrittenBlock) -> Option<DueCall>
    ensures told { IfSome result (λ view. TellsDue view written.old.bytes written.new.bytes (disk, Write boot.number at from.now)) }
    ensures long { result ≡ None → BLOCK_LENGTH < length from.now }
    ensures untold { result ≡ None → written.new.bytes ≡ written.old.bytes }
{
    let long = from.len();
    if long > BLOCK_LENGTH {
        return None;
    }
    written.bytes[..long].copy_from_slice(from);
    Some(DueCall {
        at,
        length: long as u64,
        ..plain(4, disk, boot.number)
    })
}
