ghost use Rattle.std.specs.Prelude.{◌≡◌, ◌<◌, ◌^◌, ℕ, OnOk};
ghost use Rattle.std.specs.Io.KnownBytes.{Appends};
ghost use Rattle.lock_command.specs.Signs.{sign_name};

use crate::number::{HostNumber, LockNumber};
use std::io;
use std::io::Write;

/// Writes the name of the file that is a lock's sign of life, in the folder of the images of the number `set`.
pub fn sign_name<W: Write>(
    set: u64,
    host: HostNumber,
    lock: LockNumber,
    out: &mut W,
) -> io::Result<()>
    ensures { OnOk result (Appends (W.contents out.old) (W.contents out.new) (sign_name set host lock)) }
{
    let host = host.get();
    let lock = lock.get();
    write!(out, "mg-lock.{set}.{host}.{lock}")
}

/// Two locks of one table, or of two sets of images, or of two hosts, never have one sign. So what counts for a lock is a sign of the set that has it.
pub fn signs_are_of_one_lock()
    ensures { (set host lock other_set other_host other_lock : ℕ) →
        set < 2 ^ 64 → host < 2 ^ 64 → lock < 2 ^ 64 → other_set < 2 ^ 64 → other_host < 2 ^ 64 → other_lock < 2 ^ 64 →
        sign_name set host lock ≡ sign_name other_set other_host other_lock →
        (set ≡ other_set) × (host ≡ other_host) × (lock ≡ other_lock) }
{}
