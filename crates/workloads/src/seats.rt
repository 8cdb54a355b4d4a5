ghost use Rattle.std.specs.Prelude.{◌≡◌};
ghost use Rattle.cluster.specs.Opening.{IsNamed};

use crate::commands::Commands;
use crate::digest::Digest;
use crate::failure::Failure;
use crate::numbers::Numbers;
use crate::words::Size;
use cluster::{
    Cluster, ClusterName, Config, Entry, HostFault, HostSeat, OpenGate, Opening, Receipt,
};
use disk::SimDisk;
use lock_command::{Command, HostNumber};
use std::alloc::{AllocGlobal, Global};
use std::marker::Brand;
use std::sync::Wait;

/// How many clusters there are.
const CLUSTERS: u32 = 24;

/// How many hosts there are.
const HOSTS: u8 = 4;

/// The slots of a log.
const SLOTS: u16 = 1024;

/// How many commands a host submits before it is another host's turn.
const TURN: u16 = 32;

/// Four hosts of a cluster of three disks submit in turn, each step through the locks of `cluster`, until the log is full.
pub fn submit_in_seats<R: Wait + AllocGlobal>(
    rt: &R,
    size: Size,
    seed: u32,
) -> Result<Digest, Failure> {
    let mut digest = Digest::new();
    for number in 0..size.rounds(CLUSTERS) {
        let commands = Commands::new(Numbers::new(seed, number), 64);
        fill_cluster(rt, size.length(SLOTS), commands, &mut digest)?;
    }
    Ok(digest)
}

fn fill_cluster<R: Wait + AllocGlobal>(
    rt: &R,
    slots: u16,
    commands: Commands,
    digest: &mut Digest,
) -> Result<(), Failure> {
    let Some(config) = Config::new(3, slots) else {
        return Err(Failure::Wrong);
    };
    let opening = Opening::new(rt.alloc(), config)?;
    fill_named::<Brand, R>(rt, opening, commands, digest)
}

fn fill_named<N: ClusterName, R: Wait + AllocGlobal>(
    rt: &R,
    opening: Opening,
    commands: Commands,
    digest: &mut Digest,
) -> Result<(), Failure>
    requires { IsNamed opening N.shape N.table N.name N.parts N.all }
{
    let alloc = rt.alloc();
    let slots = opening.config().slots();
    let (ties, foundation) = opening.named::<N>(alloc)?;
    let cluster = Cluster::simulated(alloc, &ties, foundation)?;
    fill(rt, alloc, cluster, slots, commands, digest)
}

fn fill<N: ClusterName, R: Wait>(
    rt: &R,
    alloc: Global,
    cluster: Cluster<'_, N, SimDisk>,
    slots: u16,
    commands: Commands,
    digest: &mut Digest,
) -> Result<(), Failure> {
    let (seats, worked) = work(rt, alloc, &cluster, slots, commands, digest)?;
    add_seats(&seats, digest);
    let record = cluster.finish(seats)?;
    add_entries(&record.entries, digest);
    worked
}

/// What the hosts have learned.
fn add_seats<N: ClusterName>(seats: &Vec<HostSeat<N>>, digest: &mut Digest) {
    for seat in seats {
        digest.add_commands(seat.prefix());
    }
}

/// What the journal tells. One thread makes all calls, so it is the same at each run.
fn add_entries(entries: &Vec<Entry>, digest: &mut Digest) {
    digest.add(entries.len() as u64);
    for entry in entries {
        digest.add_entry(entry);
    }
}

/// The hosts' seats, after they have worked, and whether they could. The seats are lent meanwhile, so that no way out has to drop them.
fn work<N: ClusterName, R: Wait>(
    rt: &R,
    alloc: Global,
    cluster: &Cluster<'_, N, SimDisk>,
    slots: u16,
    commands: Commands,
    digest: &mut Digest,
) -> Result<(Vec<HostSeat<N>>, Result<(), Failure>), Failure> {
    let mut seats = all_seats(rt, alloc, cluster)?;
    let worked = take_turns(rt, cluster, seats.as_mut_slice(), slots, commands, digest);
    Ok((seats, worked))
}

fn all_seats<N: ClusterName, R: Wait>(
    rt: &R,
    alloc: Global,
    cluster: &Cluster<'_, N, SimDisk>,
) -> Result<Vec<HostSeat<N>>, Failure> {
    let mut seats = Vec::new(alloc);
    for number in 0..HOSTS {
        add_seat(rt, alloc, cluster, number, &mut seats)?;
    }
    Ok(seats)
}

fn add_seat<N: ClusterName, R: Wait>(
    rt: &R,
    alloc: Global,
    cluster: &Cluster<'_, N, SimDisk>,
    number: u8,
    seats: &mut Vec<HostSeat<N>>,
) -> Result<(), Failure> {
    let Some(host) = HostNumber::new(number) else {
        return Err(Failure::Wrong);
    };
    let seat = cluster.seat(rt, alloc, host)?;
    if seats.push(seat).is_err() {
        return Err(Failure::NoMemory);
    }
    Ok(())
}

/// Each host has its turn, by rising number, over and over, until the log is full.
fn take_turns<N: ClusterName>(
    rt: &impl Wait,
    cluster: &Cluster<'_, N, SimDisk>,
    seats: &mut [HostSeat<N>],
    slots: u16,
    mut commands: Commands,
    digest: &mut Digest,
) -> Result<(), Failure> {
    for turn in 0..slots / TURN {
        let at = usize::from(turn % u16::from(HOSTS));
        if at >= seats.len() {
            return Err(Failure::Wrong);
        }
        take_turn(rt, cluster, &mut seats[at], &mut commands, digest)?;
    }
    Ok(())
}

fn take_turn<N: ClusterName>(
    rt: &impl Wait,
    cluster: &Cluster<'_, N, SimDisk>,
    seat: &mut HostSeat<N>,
    commands: &mut Commands,
    digest: &mut Digest,
) -> Result<(), Failure> {
    for _ in 0..TURN {
        submit(rt, cluster, seat, commands, digest)?;
    }
    Ok(())
}

/// Submits the next command.
fn submit<N: ClusterName>(
    rt: &impl Wait,
    cluster: &Cluster<'_, N, SimDisk>,
    seat: &mut HostSeat<N>,
    commands: &mut Commands,
    digest: &mut Digest,
) -> Result<(), Failure> {
    let Some(command) = commands.next(seat.host()) else {
        return Err(Failure::Wrong);
    };
    if !seat.idle() {
        return Err(Failure::Wrong);
    }
    let done = cluster.submit(rt, seat, &mut OpenGate, command, 8);
    hear(&done, &command, commands, digest)
}

/// What came of a submission.
fn hear(
    done: &Result<Receipt, HostFault>,
    command: &Command,
    commands: &mut Commands,
    digest: &mut Digest,
) -> Result<(), Failure> {
    match done {
        Ok(receipt) => {
            commands.hear(command, &receipt.reply);
            digest.add_receipt(receipt);
            Ok(())
        }
        Err(fault) => Err(Failure::Host(*fault)),
    }
}
