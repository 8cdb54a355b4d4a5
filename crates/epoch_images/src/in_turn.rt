ghost use Rattle.std.specs.Prelude.{◌≡◌, ◌≤◌, ◌+◌, ◌*◌, ◌/◌, true, Some, Err, IfOk, IfErr};
ghost use Rattle.lock_command.specs.Command.{is_submittable};
ghost use Rattle.epoch_host.specs.Walking.{IsSame};
ghost use Rattle.epoch_images.specs.Tries.{HasTried};
ghost use Rattle.epoch_images.specs.Working.{HasWorked, said_by};

use crate::epoch_disk_host::{EpochDiskHost, Placed};
use crate::fault::EpochFault;
use attempt::Refusal;
use disk::Disk;
use epoch_host::{EpochAnswer, EpochTask};
use lock_command::Command;
use std::random::RandomSource;
use std::time::{Clock, Duration, Instant};
use std::{io, thread};

/// The bound of a wait, in microseconds, is at least the first and at most the last of these. The one between is that of the first wait where the clock tells
/// nothing.
const SHORTEST_BOUND: u64 = 20;

const UNTIMED_BOUND: u64 = 16_000;

const LONGEST_BOUND: u64 = 2_048_000;

/// A random number says how many of so many parts of its bound a wait takes.
const PARTS: u64 = 1 << 32;

/// Submits as `EpochDiskHost::submit` does, and waits where it was outrun, before it tries again: for a random time, up to as long as the try took. That
/// doubles from try to try. So hosts that submit at once stop outrunning one another. A host that is not outrun never waits.
pub fn submit_in_turn<R: Clock + RandomSource, D: Disk>(
    rt: &R,
    host: &mut EpochDiskHost<D>,
    command: Command,
    tries: u8,
) -> Result<Placed, EpochFault>
    requires host { command.host ≡ host.old.host.host }
    requires asked { is_submittable command ≡ true }
    requires tries { 1 ≤ tries }
    ensures acknowledged { IfOk result (λ done. HasTried D.gives command tries (Some (EpochAnswer.Ack done.place done.reply)) host.old host.new) }
    ensures refused { IfErr result (λ fault. HasTried D.gives command tries (said_by fault) host.old host.new) }
    // It gives up as outrun only once it has tried so often.
    ensures outrun { result ≡ Err (EpochFault.Refused Refusal.Outrun) →
        (done : HasTried D.gives command tries (Some (EpochAnswer.Refused Refusal.Outrun)) host.old host.new) × (done.outrun + 1 ≡ tries) }
{
    let command = &command;
    for outrun in 0..tries - 1 {
        let began = Instant::now(rt);
        let ended = submit_once(host, command);
        let Err(EpochFault::Refused(Refusal::Outrun)) = ended else {
            return ended;
        };
        pause(rt, time_since(rt, began), outrun);
    }
    submit_once(host, command)
}

/// A submission that ends where it is outrun.
fn submit_once<D: Disk>(
    host: &mut EpochDiskHost<D>,
    command: &Command,
) -> Result<Placed, EpochFault>
    requires host { command.now.host ≡ host.old.host.host }
    requires asked { is_submittable command.now ≡ true }
    ensures acknowledged { IfOk result (λ done.
        HasWorked D.gives (EpochTask.Submit command.now 1) (Some (EpochAnswer.Ack done.place done.reply)) host.old host.new) }
    ensures refused { IfErr result (λ fault. HasWorked D.gives (EpochTask.Submit command.now 1) (said_by fault) host.old host.new) }
    ensures same { IsSame host.old.host host.new.host }
{
    host.submit(*command, 1)
}

/// How long a try took, in microseconds.
fn time_since<R: Clock>(rt: &R, began: io::Result<Instant>) -> u64 {
    micros_since(rt, began).unwrap_or(UNTIMED_BOUND)
}

fn micros_since<R: Clock>(rt: &R, began: io::Result<Instant>) -> Option<u64> {
    let spent = began.ok()?.elapsed(rt).ok()?;
    u64::try_from(spent.as_micros()).ok()
}

/// Waits for a random time. Its bound is as long as the try took, and doubles with the tries that were outrun before. Where the system has no random numbers it
/// waits as long as it ever does after so many.
fn pause<R: Clock + RandomSource>(rt: &R, took: u64, outrun: u8) {
    let doubled = took.min(LONGEST_BOUND) << u32::from(outrun.min(7));
    let bound = doubled.clamp(SHORTEST_BOUND, LONGEST_BOUND);
    let mut bytes = [0xFF; 4];
    let _ = rt.fill_bytes(&mut bytes);
    let part = u32::from_le_bytes(bytes);
    thread::sleep(rt, Duration::from_micros(part_of(bound, part)));
}

/// So many parts of a bound.
fn part_of(bound: u64, part: u32) -> u64
    requires { bound ≤ LONGEST_BOUND }
    ensures { result ≡ bound * part / PARTS }
{
    bound * u64::from(part) / PARTS
}
