//! The names of signs of life, which C makes and locks.
ghost use Rattle.std.specs.Prelude.{◌≡◌, ◌<◌, ◌++◌, IfOk, IfErr, drop, length};
ghost use Rattle.lock_command.specs.Signs.{sign_name};
ghost use Rattle.c_claims.specs.Signs.{IsText, LacksName};

use c_host::{Fault, host_of, lock_of};
use lock_command::sign_name;
use std::alloc::Global;
use std::io::Write;

/// Puts the name of a lock's sign of life into a buffer, and a zero behind it. It is that of the lock of this number which was enqueued through
/// the host of this number, in the table of the images of this number.
pub fn name_sign(
    alloc: Global,
    set: u64,
    number: u32,
    lock: u32,
    into: &mut [u8],
) -> Result<(), Fault>
    ensures named { IfOk result (λ _. IsText (sign_name set number lock) into.old into.new) }
    ensures unnamed { IfErr result (LacksName set number lock (length into.old)) }
    ensures unchanged { IfErr result (λ _. into.new ≡ into.old) }
{
    let (Some(host), Some(lock)) = (host_of(number), lock_of(lock)) else {
        return Err(Fault::BadArgument);
    };
    let mut name = Vec::new(alloc);
    if sign_name(set, host, lock, &mut name).is_err() || name.write_all(b"\0").is_err() {
        return Err(Fault::NoMemory);
    }
    put(&name, into)
}

fn put(name: &[u8], into: &mut [u8]) -> Result<(), Fault>
    ensures put { IfOk result (λ _. into.new ≡ name.now ++ drop (length name.now) into.old) }
    ensures room { IfErr result (λ fault. (fault ≡ Fault.BadArgument) × (length into.old < length name.now) × (into.new ≡ into.old)) }
{
    if into.len() < name.len() {
        return Err(Fault::BadArgument);
    }
    into[..name.len()].copy_from_slice(name);
    Ok(())
}
