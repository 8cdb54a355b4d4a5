ghost use Rattle.std.specs.Prelude.{◌≡◌, IfSome, true};
ghost use Rattle.lock_command.specs.Command.{is_submittable};
ghost use Rattle.cluster.specs.Opening.{IsNamed};

use crate::bench_failure::BenchFailure;
use crate::tables::row_name;
use crate::timing::{ROUNDS, Timing};
use cluster::{Cluster, ClusterName, Config, HostFault, HostSeat, OpenGate, Opening, Receipt};
use disk::SimDisk;
use lock_command::{Action, ClientNumber, Command, HostNumber, LockNumber, Mode, RequestNumber};
use lock_table::Answer;
use std::alloc::{AllocGlobal, Global};
use std::marker::Brand;
use std::sync::Wait;
use std::time::{Clock, Instant};

/// The slots of the log, and so the most submissions.
pub const SLOTS: u16 = 4096;

/// How many locks are enqueued before they are released, each on a name of its own: as many as a table takes.
const LOCKS: u32 = 256;

/// How many clients submit in turn: as many as a table knows.
const CLIENTS: u32 = 32;

/// The shortest of twenty rounds of so many submissions.
pub fn best_first_path<R: Wait + Clock + AllocGlobal>(
    rt: &R,
    count: u32,
) -> Result<Timing, BenchFailure> {
    let mut spent = u64::MAX;
    for _ in 0..ROUNDS {
        spent = spent.min(first_path(rt, count)?);
    }
    Ok(Timing { count, spent })
}

/// So many submissions to host 0 over one simulated disk, each through the locks to its acknowledgement. Gives the nanoseconds.
pub fn first_path<R: Wait + Clock + AllocGlobal>(rt: &R, count: u32) -> Result<u64, BenchFailure> {
    let Some(config) = Config::new(1, SLOTS) else {
        return Err(BenchFailure::Wrong);
    };
    let opening = Opening::new(rt.alloc(), config)?;
    submissions::<Brand, R>(rt, opening, count)
}

fn submissions<N: ClusterName, R: Wait + Clock + AllocGlobal>(
    rt: &R,
    opening: Opening,
    count: u32,
) -> Result<u64, BenchFailure>
    requires { IsNamed opening N.shape N.table N.name N.parts N.all }
{
    let alloc = rt.alloc();
    let (ties, foundation) = opening.named::<N>(alloc)?;
    let cluster = Cluster::simulated(alloc, &ties, foundation)?;
    time_host(rt, alloc, &cluster, count)
}

// Starts host 0, and gives the nanoseconds of its submissions.
fn time_host<N: ClusterName, R: Wait + Clock>(
    rt: &R,
    alloc: Global,
    cluster: &Cluster<'_, N, SimDisk>,
    count: u32,
) -> Result<u64, BenchFailure> {
    let Some(host) = HostNumber::new(0) else {
        return Err(BenchFailure::Wrong);
    };
    let mut seat = cluster.seat(rt, alloc, host)?;
    time_each(rt, cluster, &mut seat, count)
}

// The nanoseconds of so many submissions. The seat is lent, so that no way out has to drop it.
fn time_each<N: ClusterName, R: Wait + Clock>(
    rt: &R,
    cluster: &Cluster<'_, N, SimDisk>,
    seat: &mut HostSeat<N>,
    count: u32,
) -> Result<u64, BenchFailure> {
    let start = Instant::now(rt)?;
    submit_each(rt, cluster, seat, count)?;
    let spent = start.elapsed(rt)?;
    Ok(u64::try_from(spent.as_nanos()).unwrap_or(u64::MAX))
}

// So many submissions, one after the other.
fn submit_each<N: ClusterName>(
    rt: &impl Wait,
    cluster: &Cluster<'_, N, SimDisk>,
    seat: &mut HostSeat<N>,
    count: u32,
) -> Result<(), BenchFailure> {
    for place in 0..count {
        submit_at(rt, cluster, seat, place)?;
    }
    Ok(())
}

fn submit_at<N: ClusterName>(
    rt: &impl Wait,
    cluster: &Cluster<'_, N, SimDisk>,
    seat: &mut HostSeat<N>,
    place: u32,
) -> Result<(), BenchFailure> {
    let Some(command) = command_at(seat.host(), place) else {
        return Err(BenchFailure::Wrong);
    };
    if !seat.idle() {
        return Err(BenchFailure::Wrong);
    }
    accepted(&cluster.submit(rt, seat, &mut OpenGate, command, 1))
}

// Whether it was acknowledged, and the table took it.
fn accepted(done: &Result<Receipt, HostFault>) -> Result<(), BenchFailure> {
    match done {
        Ok(receipt) if matches!(receipt.reply.answer, Answer::Refused(_)) => {
            Err(BenchFailure::Wrong)
        }
        Ok(_) => Ok(()),
        Err(fault) => Err(BenchFailure::Host(*fault)),
    }
}

/// The command at this place of the log, from 0: a lock of its own on each of 256 names, by 32 clients in turn, and then each lock's release, over and over.
pub fn command_at(host: HostNumber, place: u32) -> Option<Command>
    ensures host { IfSome result (λ command. command.host ≡ host) }
    ensures asked { IfSome result (λ command. is_submittable command ≡ true) }
{
    let at = (place % LOCKS) as u16;
    let lock = LockNumber::new(at + 1)?;
    let action = if place / LOCKS % 2 == 0 {
        Action::Enqueue {
            lock,
            name: row_name(at)?,
            mode: Mode::Exclusive,
            no_queue: false,
        }
    } else {
        Action::Release { lock, value: None }
    };
    Some(Command {
        host,
        client: ClientNumber::new((place % CLIENTS) as u8),
        request: RequestNumber::new(u64::from(place) + 1)?,
        action,
    })
}
