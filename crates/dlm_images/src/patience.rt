ghost use Rattle.std.specs.Prelude.{◌≡◌, ◌≤◌, ◌+◌, ◌*◌, ◌/◌, true, Some, Err, IfOk, IfErr};
ghost use Rattle.lock_command.specs.Command.{is_submittable};
ghost use Rattle.host.specs.Host.{Submitting};
ghost use Rattle.dlm_images.specs.Operations.{HasOperated, IsAcknowledged};
ghost use Rattle.dlm_images.specs.Tries.{HasTried};

use crate::disk_host::{Acknowledgement, DiskHost};
use disk::Disk;
use host::{HostAnswer, Refusal};
use lock_command::Command;
use std::random::RandomSource;
use std::time::{Clock, Duration, Instant};
use std::{io, thread};

/// The bound of a wait, in microseconds, is at least the first and at most the last of these. The one between is that of the first wait where the clock
/// tells nothing.
const SHORTEST_BOUND: u64 = 20;

const UNTIMED_BOUND: u64 = 16_000;

const LONGEST_BOUND: u64 = 2_048_000;

/// A random number says how many of so many parts of its bound a wait takes.
const PARTS: u64 = 1 << 32;

/// Submits as `DiskHost::submit` does, and waits where it was outrun, before it tries again: for a random time, up to as long as its attempt took. That
/// doubles from try to try. So hosts that submit at once stop outrunning one another, in memory as on slow disks. A host that is not outrun never waits.
pub fn submit_patiently<R: Clock + RandomSource, D: Disk>(
    rt: &R,
    host: &mut DiskHost<D>,
    command: Command,
    tries: u8,
) -> Result<Acknowledgement, Refusal>
    requires host { command.host ≡ host.old.core.learner.host }
    requires asked { is_submittable command ≡ true }
    requires tries { 1 ≤ tries }
    ensures tried { HasTried D.gives command tries host.old host.new }
    // It gives up as outrun only once it has tried so often.
    ensures outrun { result ≡ Err Refusal.Outrun → (done : HasTried D.gives command tries host.old host.new) × (done.outrun + 1 ≡ tries) }
    ensures acknowledged { IfOk result (λ done. IsAcknowledged command done.slot done.reply host.new.core.prefix) }
    ensures told { IfOk result (λ done. host.new.core.said ≡ Some (HostAnswer.Ack done.slot done.reply)) }
    ensures refused { IfErr result (λ refusal. host.new.core.said ≡ Some (HostAnswer.Refused refusal)) }
{
    let command = &command;
    for outrun in 0..tries - 1 {
        let learned = host.learned();
        let began = Instant::now(rt);
        let ended = submit_once(host, command);
        let Err(Refusal::Outrun) = ended else {
            return ended;
        };
        pause(
            rt,
            attempt_time(rt, began, host.learned().saturating_sub(learned)),
            outrun,
        );
    }
    submit_once(host, command)
}

/// A submission that ends where it is outrun.
fn submit_once<D: Disk>(
    host: &mut DiskHost<D>,
    command: &Command,
) -> Result<Acknowledgement, Refusal>
    requires host { command.now.host ≡ host.old.core.learner.host }
    requires asked { is_submittable command.now ≡ true }
    ensures operated { HasOperated D.gives (Submitting command.now) 1 host.old host.new }
    ensures same { host.new.core.learner.host ≡ host.old.core.learner.host }
    ensures acknowledged { IfOk result (λ done. IsAcknowledged command.now done.slot done.reply host.new.core.prefix) }
    ensures told { IfOk result (λ done. host.new.core.said ≡ Some (HostAnswer.Ack done.slot done.reply)) }
    ensures refused { IfErr result (λ refusal. host.new.core.said ≡ Some (HostAnswer.Refused refusal)) }
{
    host.submit(*command, 1)
}

/// How long the last attempt took, in microseconds: what a slot took on average since then, for so many slots were learned before it.
fn attempt_time<R: Clock>(rt: &R, began: io::Result<Instant>, learned: u16) -> u64 {
    micros_since(rt, began).map_or(UNTIMED_BOUND, |spent| spent / (u64::from(learned) + 1))
}

fn micros_since<R: Clock>(rt: &R, began: io::Result<Instant>) -> Option<u64> {
    let spent = began.ok()?.elapsed(rt).ok()?;
    u64::try_from(spent.as_micros()).ok()
}

/// Waits for a random time. Its bound is as long as the attempt took, and doubles with the tries that were outrun before. Where the system has no random
/// numbers it waits as long as it ever does after so many.
fn pause<R: Clock + RandomSource>(rt: &R, took: u64, outrun: u8) {
    let doubled = took.min(LONGEST_BOUND) << u32::from(outrun.min(7));
    let bound = doubled.clamp(SHORTEST_BOUND, LONGEST_BOUND);
    let mut bytes = [0xFF; 4];
    let _ = rt.fill_bytes(&mut bytes);
    let part = u32::from_le_bytes(bytes);
    thread::sleep(rt, Duration::from_micros(part_of(bound, part)));
}

/// So many parts of a bound.
fn part_of(bound: u64, part: u32) -> u64
    requires { bound ≤ LONGEST_BOUND }
    ensures { result ≡ bound * part / PARTS }
{
    bound * u64::from(part) / PARTS
}
