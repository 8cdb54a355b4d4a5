ghost use Rattle.std.specs.Prelude.{◌≡◌, ◌≤◌, IfSome, true, false};
ghost use Rattle.lock_command.specs.Command.{is_carried, is_quiet, is_submittable};
ghost use Rattle.cluster.specs.Opening.{IsNamed};

use crate::pair_disk::{Flags, PairDisk, is_set, pair};
use cluster::{
    Cluster, ClusterName, Config, Entry, Gate, HostFault, HostSeat, OpenGate, Opening, Receipt,
    Refusal,
};
use disk::{Disk, SimDisk};
use lock_command::{
    Action, Answer, ClientNumber, Command, HostNumber, LockName, LockNumber, Mode, RequestNumber,
};
use std::alloc::Global;
use std::marker::Brand;
use std::sync::Wait;
use std::sync::atomic::{AtomicBool, Ordering};
use std::test::Fail;
use std::thread;
use std::thread::{Threads, join, map_indices};
use std::time::{Clock, Duration};

// An exclusive lock on one name.
fn command(host: HostNumber, lock: u16, request: u64) -> Option<Command>
    ensures host { IfSome result (λ command. command.host ≡ host) }
    ensures asked { IfSome result (λ command. is_submittable command ≡ true) }
{
    Some(Command {
        host,
        client: ClientNumber::new(host.get() + 1),
        request: RequestNumber::new(request)?,
        action: Action::Enqueue {
            lock: LockNumber::new(lock)?,
            name: LockName::new(b"db")?,
            mode: Mode::Exclusive,
            no_queue: false,
        },
    })
}

// A host that has just been started. Nothing is said of it, so that whoever asks for it has no list of entries to carry along.
fn seat_of<N: ClusterName, D: Disk + Drop>(
    rt: &impl Wait,
    alloc: Global,
    cluster: &Cluster<'_, N, D>,
    host: u8,
) -> Option<HostSeat<N>> {
    cluster.seat(rt, alloc, HostNumber::new(host)?).ok()
}

// Two seats to be given back.
fn seats_of<N: ClusterName>(
    alloc: Global,
    one: HostSeat<N>,
    other: HostSeat<N>,
) -> Option<Vec<HostSeat<N>>> {
    vec![in alloc; one, other].ok()
}

// The entries of a cluster whose seats are given back. Whoever calls this holds neither afterwards.
fn left_by<N: ClusterName, D: Disk + Drop>(
    cluster: Cluster<'_, N, D>,
    seats: Vec<HostSeat<N>>,
) -> Option<Vec<Entry>> {
    let record = cluster.finish(seats).ok()?;
    Some(record.entries)
}

// Submits an enqueue of a lock, where the host is idle.
fn submitted<N: ClusterName, D: Disk + Drop, G: Gate>(
    rt: &impl Wait,
    cluster: &Cluster<'_, N, D>,
    seat: &mut HostSeat<N>,
    gate: &mut G,
    lock: u16,
    tries: u8,
) -> Result<Option<Receipt>, HostFault>
    requires { 1 ≤ tries }
{
    let Some(command) = command(seat.host(), lock, 1) else {
        return Ok(None);
    };
    if !seat.idle() {
        return Ok(None);
    }
    cluster.submit(rt, seat, gate, command, tries).map(Some)
}

// A host's seat, and the receipt that it got.
#[derive(Drop)]
struct Served<N: ClusterName> {
    seat: HostSeat<N>,
    receipt: Option<Receipt>,
}

// Submits an enqueue of a lock.
fn serve<N: ClusterName, R: Wait + Clock>(
    rt: &R,
    cluster: &Cluster<'_, N, PairDisk<'_, R>>,
    seat: HostSeat<N>,
    lock: u16,
) -> Served<N> {
    let mut seat = seat;
    let receipt = submitted(rt, cluster, &mut seat, &mut OpenGate, lock, 255);
    Served {
        seat,
        receipt: receipt.ok().flatten(),
    }
}

// One host submits; the other begins when the first one's call of disk 1 has begun.
fn serve_both<N: ClusterName + Send + Sync, R: Threads + Wait + Clock + Sync>(
    rt: &R,
    cluster: &Cluster<'_, N, PairDisk<'_, R>>,
    begun: &AtomicBool,
    one: HostSeat<N>,
    other: HostSeat<N>,
) -> (Served<N>, Served<N>) {
    join(
        rt,
        move || serve(rt, cluster, one, 1),
        move || {
            is_set(rt, begun);
            serve(rt, cluster, other, 2)
        },
    )
}

// How many of hosts 0 and 1 were acknowledged, and their seats.
fn seats_that_meet<N: ClusterName + Send + Sync, R: Threads + Wait + Clock + Sync>(
    rt: &R,
    alloc: Global,
    cluster: &Cluster<'_, N, PairDisk<'_, R>>,
    begun: &AtomicBool,
) -> Option<(usize, Vec<HostSeat<N>>)> {
    let one = seat_of(rt, alloc, cluster, 0)?;
    let other = seat_of(rt, alloc, cluster, 1)?;
    let (one, other) = serve_both(rt, cluster, begun, one, other);
    let acks = usize::from(one.receipt.is_some()) + usize::from(other.receipt.is_some());
    Some((acks, seats_of(alloc, one.seat, other.seat)?))
}

// How many were acknowledged, where the cluster can be taken apart.
fn met_in<N: ClusterName + Send + Sync, R: Threads + Wait + Clock + Sync>(
    rt: &R,
    alloc: Global,
    cluster: Cluster<'_, N, PairDisk<'_, R>>,
    begun: &AtomicBool,
) -> Option<usize> {
    let (acks, seats) = seats_that_meet(rt, alloc, &cluster, begun)?;
    let _entries = left_by(cluster, seats)?;
    Some(acks)
}

#[derive(Drop)]
struct Met {
    acks: usize,
    begun: bool,
    late: bool,
}

// One host's call of disk 1 goes on until the other has called disk 0.
fn two_hosts_met<N: ClusterName + Send + Sync, R: Threads + Wait + Clock + Sync>(
    rt: &R,
    alloc: Global,
    opening: Opening,
) -> Option<Met>
    requires named { IsNamed opening N.shape N.table N.name N.parts N.all }
    requires two { opening.shape.disks ≡ 2 }
{
    let config = opening.config();
    let flags = Flags::new();
    let (ties, foundation) = opening.named::<N>(alloc).ok()?;
    let disks = pair(rt, alloc, config, &flags).ok()?;
    let cluster = Cluster::new(alloc, disks, &ties, foundation).ok()?;
    let acks = met_in(rt, alloc, cluster, &flags.begun)?;
    Some(Met {
        acks,
        begun: flags.begun.load(Ordering::SeqCst),
        late: flags.late.load(Ordering::SeqCst),
    })
}

#[test]
fn two_disks_at_once(rt: HostRuntime) -> Result<(), Fail> {
    let config = Config::new(2, 4).ok_or("a size")?;
    let opening = Opening::new(rt.alloc(), config)?;
    let met = two_hosts_met::<Brand, HostRuntime>(&rt, rt.alloc(), opening).ok_or("a record")?;
    assert!(rt; met.begun);
    assert!(rt; !met.late);
    assert_eq!(rt; met.acks, 2);
    Ok(())
}

// Crashes disk 0 before its host's 15th call.
#[derive(Drop)]
struct Crashes<'r, 'c, 't, N: ClusterName, R: Wait> {
    rt: &'r R,
    cluster: &'c Cluster<'t, N, SimDisk>,
    fault: Option<HostFault>,
}

impl<N: ClusterName, R: Wait> Gate for Crashes<'_, '_, '_, N, R> {
    fn before_call(&mut self, call: u64) {
        if call == 15 {
            self.fault = crash(self.rt, self.cluster, 0).err();
        }
    }
}

fn crash<N: ClusterName>(
    rt: &impl Wait,
    cluster: &Cluster<'_, N, SimDisk>,
    disk: u8,
) -> Result<(), HostFault> {
    if disk < cluster.disks() {
        cluster.crash_disk(rt, disk, &[0])?;
    }
    Ok(())
}

fn lose<N: ClusterName>(
    rt: &impl Wait,
    cluster: &Cluster<'_, N, SimDisk>,
    disk: u8,
) -> Result<(), HostFault> {
    if disk < cluster.disks() {
        cluster.lose_disk(rt, disk)?;
    }
    Ok(())
}

// What a submission came to within which a disk crashed, how that was refused, and how a recovery was.
#[derive(Drop)]
struct Harm {
    receipt: Option<Receipt>,
    fault: Option<HostFault>,
    refused: Option<HostFault>,
}

// How a recovery is refused, where the host is idle.
fn recovery_refused<N: ClusterName>(
    rt: &impl Wait,
    cluster: &Cluster<'_, N, SimDisk>,
    seat: &mut HostSeat<N>,
) -> Option<HostFault> {
    if !seat.idle() {
        return None;
    }
    cluster.recover(rt, seat, &mut OpenGate, 1).err()
}

// A disk crashes within a submission; then two disks are lost, and a recovery is tried.
fn do_harm<N: ClusterName, R: Wait>(
    rt: &R,
    cluster: &Cluster<'_, N, SimDisk>,
    seat: &mut HostSeat<N>,
) -> Harm {
    let mut gate = Crashes {
        rt,
        cluster,
        fault: None,
    };
    let receipt = submitted(rt, cluster, seat, &mut gate, 1, 1);
    let fault = gate.fault;
    let _first = lose(rt, cluster, 0);
    let _second = lose(rt, cluster, 1);
    Harm {
        receipt: receipt.ok().flatten(),
        fault,
        refused: recovery_refused(rt, cluster, seat),
    }
}

// The same of host 0, and its seat.
fn seat_in_harm<N: ClusterName, R: Wait>(
    rt: &R,
    alloc: Global,
    cluster: &Cluster<'_, N, SimDisk>,
) -> Option<(Harm, Vec<HostSeat<N>>)> {
    let mut seat = seat_of(rt, alloc, cluster, 0)?;
    let harm = do_harm(rt, cluster, &mut seat);
    Some((harm, vec![in alloc; seat].ok()?))
}

#[derive(Drop)]
struct Harmed {
    receipt: Option<Receipt>,
    fault: Option<HostFault>,
    refused: Option<HostFault>,
    entries: usize,
    shown: [bool; 3],
}

// Whether the journal shows the crash and the two losses at their places.
fn faults_shown(entries: &[Entry]) -> [bool; 3] {
    [
        matches!(entries.get(16), Some(Entry::DiskCrash(0))),
        matches!(entries.get(46), Some(Entry::DiskGone(0))),
        matches!(entries.get(47), Some(Entry::DiskGone(1))),
    ]
}

// The same, and what the cluster leaves.
fn harmed_in<N: ClusterName, R: Wait>(
    rt: &R,
    alloc: Global,
    cluster: Cluster<'_, N, SimDisk>,
) -> Option<Harmed> {
    let (harm, seats) = seat_in_harm(rt, alloc, &cluster)?;
    let entries = left_by(cluster, seats)?;
    Some(Harmed {
        receipt: harm.receipt,
        fault: harm.fault,
        refused: harm.refused,
        entries: entries.len(),
        shown: faults_shown(&entries),
    })
}

fn harm_read_back<N: ClusterName, R: Wait>(
    rt: &R,
    alloc: Global,
    opening: Opening,
) -> Option<Harmed>
    requires { IsNamed opening N.shape N.table N.name N.parts N.all }
{
    let (ties, foundation) = opening.named::<N>(alloc).ok()?;
    let cluster = Cluster::simulated(alloc, &ties, foundation).ok()?;
    harmed_in(rt, alloc, cluster)
}

#[test]
fn faults_read_back(rt: HostRuntime) -> Result<(), Fail> {
    let config = Config::new(3, 2).ok_or("a size")?;
    let opening = Opening::new(rt.alloc(), config)?;
    let harmed = harm_read_back::<Brand, HostRuntime>(&rt, rt.alloc(), opening).ok_or("a record")?;
    assert!(rt; harmed.fault.is_none());
    let receipt = harmed.receipt.ok_or("a receipt")?;
    assert_eq!(rt;
        (receipt.slot, receipt.reply.answer, receipt.place),
        (0, Answer::Granted, 45)
    );
    assert_eq!(rt;
        harmed.refused,
        Some(HostFault::Refused(Refusal::NoMajority))
    );
    assert_eq!(rt; harmed.entries, 51);
    assert_eq!(rt; harmed.shown, [true; 3]);
    Ok(())
}

#[derive(Drop)]
struct Crowd {
    acks: usize,
    harm: usize,
}

// A host submits so many commands, marks some slots, beats now and then, and starts anew, looks and recovers after a few.
fn works<N: ClusterName, R: Wait + Clock>(
    rt: &R,
    alloc: Global,
    cluster: &Cluster<'_, N, SimDisk>,
    host: HostNumber,
    rounds: u16,
) -> Option<HostSeat<N>> {
    let mut seat = cluster.seat(rt, alloc, host).ok()?;
    take_turns(rt, alloc, cluster, &mut seat, rounds)?;
    Some(seat)
}

// The same, by its seat.
fn take_turns<N: ClusterName, R: Wait + Clock>(
    rt: &R,
    alloc: Global,
    cluster: &Cluster<'_, N, SimDisk>,
    seat: &mut HostSeat<N>,
    rounds: u16,
) -> Option<()> {
    for round in 0..rounds {
        take_turn(rt, cluster, seat, round + 1)?;
        if round % 4 == 1 {
            beat_if_idle(rt, cluster, seat)?;
        }
        if round == 3 || round == 9 {
            start_anew(rt, alloc, cluster, seat)?;
        }
    }
    Some(())
}

// Submits the command of this round, and marks its slot in every third. Whoever is outrun lets the others go on for a while.
fn take_turn<N: ClusterName, R: Wait + Clock>(
    rt: &R,
    cluster: &Cluster<'_, N, SimDisk>,
    seat: &mut HostSeat<N>,
    round: u16,
) -> Option<()> {
    let command = turn(seat.host(), round)?;
    if !seat.idle() {
        return None;
    }
    let pause = u64::from(seat.host().get()) * 2 + 1;
    match cluster.submit(rt, seat, &mut OpenGate, command, 4) {
        Ok(receipt) if round % 3 == 0 => mark_if_idle(rt, cluster, seat, receipt.slot),
        Ok(_) => Some(()),
        Err(HostFault::Refused(_)) => {
            thread::sleep(rt, Duration::from_millis(pause));
            Some(())
        }
        Err(_) => None,
    }
}

// Marks a slot, where the host is idle.
fn mark_once<N: ClusterName>(
    rt: &impl Wait,
    cluster: &Cluster<'_, N, SimDisk>,
    seat: &mut HostSeat<N>,
    slot: u16,
) -> Result<Option<u8>, HostFault> {
    if !seat.idle() || slot >= cluster.slots() {
        return Ok(None);
    }
    cluster.mark(rt, seat, &mut OpenGate, slot).map(Some)
}

// Marks a slot, refused or not.
fn mark_if_idle<N: ClusterName>(
    rt: &impl Wait,
    cluster: &Cluster<'_, N, SimDisk>,
    seat: &mut HostSeat<N>,
    slot: u16,
) -> Option<()> {
    match mark_once(rt, cluster, seat, slot) {
        Ok(Some(_)) | Err(HostFault::Refused(_)) => Some(()),
        Ok(None) | Err(_) => None,
    }
}

// Beats, refused or not.
fn beat_if_idle<N: ClusterName>(
    rt: &impl Wait,
    cluster: &Cluster<'_, N, SimDisk>,
    seat: &mut HostSeat<N>,
) -> Option<()> {
    if !seat.idle() {
        return None;
    }
    match cluster.beat(rt, seat, &mut OpenGate) {
        Ok(_) | Err(HostFault::Refused(_)) => Some(()),
        Err(_) => None,
    }
}

// Stops and starts, looks, and recovers, refused or not.
fn start_anew<N: ClusterName>(
    rt: &impl Wait,
    alloc: Global,
    cluster: &Cluster<'_, N, SimDisk>,
    seat: &mut HostSeat<N>,
) -> Option<()> {
    cluster.restart(rt, alloc, seat).ok()?;
    look_if_idle(rt, cluster, seat)?;
    recover_if_idle(rt, cluster, seat)
}

// Looks, refused or not.
fn look_if_idle<N: ClusterName>(
    rt: &impl Wait,
    cluster: &Cluster<'_, N, SimDisk>,
    seat: &mut HostSeat<N>,
) -> Option<()> {
    if !seat.idle() {
        return None;
    }
    match cluster.look(rt, seat, &mut OpenGate) {
        Ok(_) | Err(HostFault::Refused(_)) => Some(()),
        Err(_) => None,
    }
}

// Recovers, refused or not.
fn recover_if_idle<N: ClusterName>(
    rt: &impl Wait,
    cluster: &Cluster<'_, N, SimDisk>,
    seat: &mut HostSeat<N>,
) -> Option<()> {
    if !seat.idle() {
        return None;
    }
    match cluster.recover(rt, seat, &mut OpenGate, 255) {
        Ok(_) | Err(HostFault::Refused(_)) => Some(()),
        Err(_) => None,
    }
}

// By turns an enqueue of the host's lock, which may have to wait for those of others, and its release.
fn turn(host: HostNumber, round: u16) -> Option<Command>
    ensures host { IfSome result (λ command. command.host ≡ host) }
    ensures asked { IfSome result (λ command. is_submittable command ≡ true) }
{
    let lock = LockNumber::new(u16::from(host.get()) + 1)?;
    Some(Command {
        host,
        client: ClientNumber::new(host.get() + 1),
        request: RequestNumber::new(u64::from(round))?,
        action: action_in(round, lock)?,
    })
}

fn action_in(round: u16, lock: LockNumber) -> Option<Action>
    ensures { IfSome result (λ action. (is_quiet action ≡ false) × (is_carried action ≡ false)) }
{
    if round % 2 == 0 {
        return Some(Action::Release { lock, value: None });
    }
    Some(Action::Enqueue {
        lock,
        name: LockName::new(b"db")?,
        mode: Mode::ProtectedWrite,
        no_queue: false,
    })
}

// Crashes disks, and loses two of five.
fn harms<N: ClusterName, R: Wait + Clock>(rt: &R, cluster: &Cluster<'_, N, SimDisk>) -> Option<()> {
    let mut chance: u64 = 7;
    for turn in 0..64u8 {
        chance = chance
            .wrapping_mul(6_364_136_223_846_793_005)
            .wrapping_add(1_442_695_040_888_963_407);
        crash(rt, cluster, ((chance >> 32) % 5) as u8).ok()?;
        if turn == 20 {
            lose(rt, cluster, 1).ok()?;
        }
        if turn == 40 {
            lose(rt, cluster, 3).ok()?;
        }
        thread::sleep(rt, Duration::from_millis(20));
    }
    Some(())
}

// How many hosts crowd the disks.
const CROWD: usize = 8;

// The seats of eight hosts that work, with a thread that does harm to the disks.
fn seats_that_work<N: ClusterName + Send + Sync, R: Threads + Wait + Clock + Sync>(
    rt: &R,
    alloc: Global,
    cluster: &Cluster<'_, N, SimDisk>,
    rounds: u16,
) -> Option<Vec<Option<HostSeat<N>>>> {
    map_indices(
        rt,
        alloc,
        CROWD + 1,
        &|i: usize| -> Option<HostSeat<N>> {
            if i == CROWD {
                let _ = harms(rt, cluster);
                return None;
            }
            let host = u8::try_from(i).ok().and_then(HostNumber::new)?;
            works(rt, alloc, cluster, host, rounds)
        },
    )
    .ok()
}

// The seats that there are.
fn seats_among<N: ClusterName>(
    alloc: Global,
    left: Vec<Option<HostSeat<N>>>,
) -> Option<Vec<HostSeat<N>>> {
    let mut seats = Vec::new(alloc);
    for seat in left {
        if let Some(seat) = seat {
            seats.push(seat).ok()?;
        }
    }
    Some(seats)
}

// How many receipts the seats have.
fn acks_of<N: ClusterName>(seats: &[HostSeat<N>]) -> usize {
    let mut acks: usize = 0;
    for seat in seats {
        acks = seat.acks().len().saturating_add(acks);
    }
    acks
}

// How many entries are a crash or a loss of a disk.
fn harm_in(entries: &[Entry]) -> usize {
    let mut harm: usize = 0;
    for entry in entries {
        if matches!(entry, Entry::DiskCrash(_) | Entry::DiskGone(_)) {
            harm = harm.saturating_add(1);
        }
    }
    harm
}

// What eight hosts come to, over the cluster.
fn crowd_in<N: ClusterName + Send + Sync, R: Threads + Wait + Clock + Sync>(
    rt: &R,
    alloc: Global,
    cluster: Cluster<'_, N, SimDisk>,
    rounds: u16,
) -> Option<Crowd> {
    let left = seats_that_work(rt, alloc, &cluster, rounds)?;
    let seats = seats_among(alloc, left)?;
    let acks = acks_of(&seats);
    let entries = left_by(cluster, seats)?;
    Some(Crowd {
        acks,
        harm: harm_in(&entries),
    })
}

// Eight hosts over five disks, with a thread that does harm to the disks.
fn crowded<N: ClusterName + Send + Sync, R: Threads + Wait + Clock + Sync>(
    rt: &R,
    alloc: Global,
    opening: Opening,
    rounds: u16,
) -> Option<Crowd>
    requires { IsNamed opening N.shape N.table N.name N.parts N.all }
{
    let (ties, foundation) = opening.named::<N>(alloc).ok()?;
    let cluster = Cluster::simulated(alloc, &ties, foundation).ok()?;
    crowd_in(rt, alloc, cluster, rounds)
}

#[test]
fn eight_hosts(rt: HostRuntime) -> Result<(), Fail> {
    let config = Config::new(5, 2048).ok_or("a size")?;
    let opening = Opening::new(rt.alloc(), config)?;
    let crowd = crowded::<Brand, HostRuntime>(&rt, rt.alloc(), opening, 125).ok_or("a record")?;
    assert!(rt; crowd.acks > 100);
    assert!(rt; crowd.harm > 2);
    Ok(())
}
