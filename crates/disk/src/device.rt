ghost use Rattle.std.specs.Prelude.{◌≡◌, ◌+◌, ◌≤◌, ℕ, IsTrue, length};
ghost use Rattle.disk.specs.Disk.{DiskState, Device, Call, Attach, Read, Write, Sync, Answer, Step, attach_answer, read_answer, done_answer, device_of, HasCause};

use crate::{Boot, DiskFault};

/// A disk that may be shared by several hosts. Each call is one atomic step.
///
/// A call under an old boot number is refused `Reset`. Whether a call that is not refused succeeds is open.
/// Positions are counted in bytes, from 0.
pub trait Disk {
    /// The disk with its bytes, if contracts can see them (`tells`).
    ghost state: { Self → DiskState };

    /// What is known of every disk. No call changes it.
    ghost device: { Self → Device };

    /// How many calls have failed, as far as a word counts.
    ghost failures: { Self → ℕ };

    /// What else this kind of disk says of a call, its answer and the disk after it.
    ghost gives: { Self → Call → Answer → Self → Type 0 } = { λ _ _ _ _. Unit {0} };

    /// How many bytes the disk has.
    fn size(&self) -> u64
        ensures { result ≡ (device self.now).size };

    /// The present boot number, under which the other calls are then made.
    fn attach(&mut self) -> Result<Boot, DiskFault>
        ensures step { IsTrue (device self.old).tells →
            Step (state self.old) Attach (attach_answer result) (state self.new) }
        ensures cause { HasCause Attach (device self.old) (failures self.old) (failures self.new) result }
        ensures device { device self.new ≡ device self.old }
        ensures gives { gives self.old Attach (attach_answer result) self.new };

    /// Fills `into` with the bytes from `at` on, synced or not. At `Err` they are any bytes.
    fn read(&mut self, boot: Boot, at: u64, into: &mut [u8]) -> Result<(), DiskFault>
        requires { at + length into.old ≤ (device self.old).size }
        ensures step { IsTrue (device self.old).tells →
            Step (state self.old) (Read boot.number at (length into.old)) (read_answer result into.new) (state self.new) }
        ensures cause { HasCause (Read boot.number at (length into.old)) (device self.old) (failures self.old) (failures self.new) result }
        ensures device { device self.new ≡ device self.old }
        ensures gives { gives self.old (Read boot.number at (length into.old)) (read_answer result into.new) self.new };

    /// Puts bytes from `at` on. Until a sync they are unsynced: a crash may leave any bytes in their place.
    fn write(&mut self, boot: Boot, at: u64, from: &[u8]) -> Result<(), DiskFault>
        requires { at + length from.now ≤ (device self.old).size }
        ensures step { IsTrue (device self.old).tells →
            Step (state self.old) (Write boot.number at from.now) (done_answer result) (state self.new) }
        ensures cause { HasCause (Write boot.number at from.now) (device self.old) (failures self.old) (failures self.new) result }
        ensures device { device self.new ≡ device self.old }
        ensures gives { gives self.old (Write boot.number at from.now) (done_answer result) self.new };

    /// Makes all bytes on the disk survive a crash, whoever wrote them.
    fn sync(&mut self, boot: Boot) -> Result<(), DiskFault>
        ensures step { IsTrue (device self.old).tells →
            Step (state self.old) (Sync boot.number) (done_answer result) (state self.new) }
        ensures cause { HasCause (Sync boot.number) (device self.old) (failures self.old) (failures self.new) result }
        ensures device { device self.new ≡ device self.old }
        ensures gives { gives self.old (Sync boot.number) (done_answer result) self.new };

    /// If contracts can see a disk's bytes, its `state` and its `device` agree on size, boot number and presence.
    ghost told: { (disk : Self) → IsTrue (device disk).tells → device disk ≡ device_of (state disk) };
}
