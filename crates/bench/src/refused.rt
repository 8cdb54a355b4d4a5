ghost use Rattle.cluster.specs.Opening.{IsNamed};

use crate::ballast::Ballast;
use crate::bench_failure::BenchFailure;
use crate::first_path::command_at;
use cluster::{
    Cluster, ClusterName, Config, HostFault, HostSeat, OpenGate, Opening, Receipt, Resumed,
};
use disk::SimDisk;
use lock_command::HostNumber;
use lock_table::Answer;
use std::alloc::{AllocError, AllocGlobal, Global};
use std::marker::Brand;
use std::sync::Wait;

/// How many disks there are.
const DISKS: u8 = 3;

/// The pages that a restart is left with, at most.
const PAGES: usize = 256;

/// When memory is held back: from a submission on, or from a restart on, which is left so many pages.
#[derive(Clone, Copy)]
enum Held {
    FromSubmission,
    FromRestart(usize),
}

/// A host recovers first or does not, restarts so often, submits, marks what was acknowledged, and restarts once more. So the journal grows in another place each time.
#[derive(Clone, Copy)]
struct Trial {
    recovers: bool,
    restarts: u8,
    held: Held,
}

/// How often memory was refused, and where.
#[derive(Clone, Copy)]
pub struct Refusals {
    /// Before the entry of a submission: the host was idle.
    pub submissions: u32,
    /// Before a device call of one: the host was busy.
    pub calls: u32,
    /// In a marking.
    pub marks: u32,
    /// In the last restart.
    pub restarts: u32,
}

/// What a host's submission and its mark came to.
#[derive(Clone, Copy)]
struct Came {
    receipt: Receipt,
    marked: u8,
}

/// Goes through all trials. Wherever memory is refused it is given back, and the call is made again: it has to come to what it comes to where none is refused.
pub fn refused<R: Wait + AllocGlobal>(rt: &R) -> Result<Refusals, BenchFailure> {
    let mut refusals = Refusals {
        submissions: 0,
        calls: 0,
        marks: 0,
        restarts: 0,
    };
    for restarts in 0..32 {
        for recovers in [false, true] {
            for held in [Held::FromSubmission, Held::FromRestart(0)] {
                let trial = Trial {
                    recovers,
                    restarts,
                    held,
                };
                try_once(rt, trial, &mut refusals)?;
            }
        }
    }
    for pages in 0..PAGES {
        let trial = Trial {
            recovers: false,
            restarts: 0,
            held: Held::FromRestart(pages),
        };
        try_once(rt, trial, &mut refusals)?;
    }
    Ok(refusals)
}

/// Goes through one trial, over a cluster of its own.
fn try_once<R: Wait + AllocGlobal>(
    rt: &R,
    trial: Trial,
    refusals: &mut Refusals,
) -> Result<(), BenchFailure> {
    let Some(config) = Config::new(DISKS, 2) else {
        return Err(BenchFailure::Wrong);
    };
    let opening = Opening::new(rt.alloc(), config)?;
    let (came, entries) = entries_of::<Brand, R>(rt, opening, trial, refusals)?;
    // A start, 31 entries of a recovery of an empty log, and two of each restart.
    let recovered = if trial.recovers { 31 } else { 0 };
    let before = 1 + recovered + 2 * usize::from(trial.restarts);
    let receipt = came.receipt;
    if receipt.slot != 0
        || receipt.reply.answer != Answer::Granted
        || receipt.place != before + 51
        || came.marked != DISKS
        || entries != before + 52 + 28 + 2
    {
        return Err(BenchFailure::Wrong);
    }
    Ok(())
}

/// Makes a cluster, lets its host 0 go through a trial, and counts the entries of the journal.
fn entries_of<N: ClusterName, R: Wait + AllocGlobal>(
    rt: &R,
    opening: Opening,
    trial: Trial,
    refusals: &mut Refusals,
) -> Result<(Came, usize), BenchFailure>
    requires { IsNamed opening N.shape N.table N.name N.parts N.all }
{
    let alloc = rt.alloc();
    let (ties, foundation) = opening.named::<N>(alloc)?;
    let cluster = Cluster::simulated(alloc, &ties, foundation)?;
    come_to(rt, alloc, cluster, trial, refusals)
}

fn come_to<N: ClusterName, R: Wait>(
    rt: &R,
    alloc: Global,
    cluster: Cluster<'_, N, SimDisk>,
    trial: Trial,
    refusals: &mut Refusals,
) -> Result<(Came, usize), BenchFailure> {
    let (came, seat) = go_from_the_start(rt, alloc, &cluster, trial, refusals)?;
    let entries = finish(alloc, cluster, seat)?;
    Ok((came?, entries))
}

// Starts host 0, and lets it go through the trial. Gives its seat as well.
fn go_from_the_start<N: ClusterName>(
    rt: &impl Wait,
    alloc: Global,
    cluster: &Cluster<'_, N, SimDisk>,
    trial: Trial,
    refusals: &mut Refusals,
) -> Result<(Result<Came, BenchFailure>, HostSeat<N>), BenchFailure> {
    let Some(host) = HostNumber::new(0) else {
        return Err(BenchFailure::Wrong);
    };
    let mut seat = cluster.seat(rt, alloc, host)?;
    let came = go_through(rt, alloc, cluster, &mut seat, trial, refusals);
    Ok((came, seat))
}

/// How many entries a cluster has left, all of whose seats are this one.
fn finish<N: ClusterName>(
    alloc: Global,
    cluster: Cluster<'_, N, SimDisk>,
    seat: HostSeat<N>,
) -> Result<usize, BenchFailure> {
    let seats = alone(alloc, seat)?;
    let record = cluster.finish(seats)?;
    Ok(record.entries.len())
}

fn alone<N: ClusterName>(
    alloc: Global,
    seat: HostSeat<N>,
) -> Result<Vec<HostSeat<N>>, BenchFailure> {
    Ok(vec![in alloc; seat].map_err(AllocError::from)?)
}

fn go_through<N: ClusterName>(
    rt: &impl Wait,
    alloc: Global,
    cluster: &Cluster<'_, N, SimDisk>,
    seat: &mut HostSeat<N>,
    trial: Trial,
    refusals: &mut Refusals,
) -> Result<Came, BenchFailure> {
    let mut ballast = Ballast::new(alloc);
    operate(rt, alloc, cluster, seat, trial, &mut ballast, refusals)
}

fn operate<N: ClusterName>(
    rt: &impl Wait,
    alloc: Global,
    cluster: &Cluster<'_, N, SimDisk>,
    seat: &mut HostSeat<N>,
    trial: Trial,
    ballast: &mut Ballast,
    refusals: &mut Refusals,
) -> Result<Came, BenchFailure> {
    if trial.recovers {
        recover(rt, cluster, seat)?;
    }
    restart_often(rt, alloc, cluster, seat, trial.restarts)?;
    if let Held::FromSubmission = trial.held {
        ballast.take(alloc, 0)?;
    }
    let receipt = submit(rt, cluster, seat, ballast, refusals)?;
    let marked = mark(rt, cluster, seat, receipt.slot, ballast, refusals)?;
    if let Held::FromRestart(pages) = trial.held {
        ballast.take(alloc, pages)?;
    }
    restart(rt, alloc, cluster, seat, ballast, refusals)?;
    Ok(Came { receipt, marked })
}

fn recover<N: ClusterName>(
    rt: &impl Wait,
    cluster: &Cluster<'_, N, SimDisk>,
    seat: &mut HostSeat<N>,
) -> Result<(), BenchFailure> {
    if !seat.idle() {
        return Err(BenchFailure::Wrong);
    }
    match &cluster.recover(rt, seat, &mut OpenGate, 1) {
        Ok(_) => Ok(()),
        Err(fault) => Err(BenchFailure::Host(*fault)),
    }
}

fn restart_often<N: ClusterName>(
    rt: &impl Wait,
    alloc: Global,
    cluster: &Cluster<'_, N, SimDisk>,
    seat: &mut HostSeat<N>,
    times: u8,
) -> Result<(), BenchFailure> {
    for _ in 0..times {
        restart_once(rt, alloc, cluster, seat)?;
    }
    Ok(())
}

fn restart_once<N: ClusterName>(
    rt: &impl Wait,
    alloc: Global,
    cluster: &Cluster<'_, N, SimDisk>,
    seat: &mut HostSeat<N>,
) -> Result<(), BenchFailure> {
    cluster.restart(rt, alloc, seat).map_err(BenchFailure::from)
}

/// Submits. Where memory is refused, that is done again, or gone on with.
fn submit<N: ClusterName>(
    rt: &impl Wait,
    cluster: &Cluster<'_, N, SimDisk>,
    seat: &mut HostSeat<N>,
    ballast: &mut Ballast,
    refusals: &mut Refusals,
) -> Result<Receipt, BenchFailure> {
    match submit_once(rt, cluster, seat) {
        Err(BenchFailure::Host(HostFault::NoMemory)) => {
            ballast.let_go();
            if seat.idle() {
                refusals.submissions = refusals.submissions.saturating_add(1);
                submit_once(rt, cluster, seat)
            } else {
                refusals.calls = refusals.calls.saturating_add(1);
                match resume(rt, cluster, seat)? {
                    Resumed::Submitted(receipt) => Ok(receipt),
                    _ => Err(BenchFailure::Wrong),
                }
            }
        }
        ended => ended,
    }
}

fn submit_once<N: ClusterName>(
    rt: &impl Wait,
    cluster: &Cluster<'_, N, SimDisk>,
    seat: &mut HostSeat<N>,
) -> Result<Receipt, BenchFailure> {
    let Some(command) = command_at(seat.host(), 0) else {
        return Err(BenchFailure::Wrong);
    };
    if !seat.idle() {
        return Err(BenchFailure::Wrong);
    }
    cluster
        .submit(rt, seat, &mut OpenGate, command, 1)
        .map_err(BenchFailure::from)
}

fn resume<N: ClusterName>(
    rt: &impl Wait,
    cluster: &Cluster<'_, N, SimDisk>,
    seat: &mut HostSeat<N>,
) -> Result<Resumed, BenchFailure> {
    if seat.idle() {
        return Err(BenchFailure::Wrong);
    }
    cluster
        .resume(rt, seat, &mut OpenGate)
        .map_err(BenchFailure::from)
}

/// Marks a slot, as `submit` submits.
fn mark<N: ClusterName>(
    rt: &impl Wait,
    cluster: &Cluster<'_, N, SimDisk>,
    seat: &mut HostSeat<N>,
    slot: u16,
    ballast: &mut Ballast,
    refusals: &mut Refusals,
) -> Result<u8, BenchFailure> {
    match mark_once(rt, cluster, seat, slot) {
        Err(BenchFailure::Host(HostFault::NoMemory)) => {
            ballast.let_go();
            refusals.marks = refusals.marks.saturating_add(1);
            if seat.idle() {
                mark_once(rt, cluster, seat, slot)
            } else {
                match resume(rt, cluster, seat)? {
                    Resumed::Marked(count) => Ok(count),
                    _ => Err(BenchFailure::Wrong),
                }
            }
        }
        ended => ended,
    }
}

fn mark_once<N: ClusterName>(
    rt: &impl Wait,
    cluster: &Cluster<'_, N, SimDisk>,
    seat: &mut HostSeat<N>,
    slot: u16,
) -> Result<u8, BenchFailure> {
    if !seat.idle() || slot >= cluster.slots() {
        return Err(BenchFailure::Wrong);
    }
    cluster
        .mark(rt, seat, &mut OpenGate, slot)
        .map_err(BenchFailure::from)
}

/// Restarts. Where memory is refused, the host runs still and knows what it knew.
fn restart<N: ClusterName>(
    rt: &impl Wait,
    alloc: Global,
    cluster: &Cluster<'_, N, SimDisk>,
    seat: &mut HostSeat<N>,
    ballast: &mut Ballast,
    refusals: &mut Refusals,
) -> Result<(), BenchFailure> {
    if let Err(fault) = cluster.restart(rt, alloc, seat) {
        ballast.let_go();
        if fault != HostFault::NoMemory || seat.prefix().len() != 1 || seat.acks().len() != 1 {
            return Err(BenchFailure::Wrong);
        }
        refusals.restarts = refusals.restarts.saturating_add(1);
        restart_once(rt, alloc, cluster, seat)?;
    }
    if !seat.prefix().is_empty() || !seat.acks().is_empty() {
        return Err(BenchFailure::Wrong);
    }
    Ok(())
}
