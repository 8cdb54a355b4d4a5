ghost use Rattle.std.specs.Prelude.{◌≡◌, IfOk};
ghost use Rattle.epoch_player.specs.Happening.{Crashes, Fails, Happens, IsAt, Loses, Marks, Says, Stops, Takes, Tears, Undertakes, place_of};

use disk::NoMemory;
use epoch_host::{EpochAnswer, EpochTask};
use epoch_simulator::{BeginFault, SimulatedEpochs};
use lock_command::HostNumber;
use lock_script::{Event, FaultBytes};
use paxos_block::Config;

/// How a task of a host ended.
#[derive(Clone, Copy, Debug)]
pub struct Said {
    pub host: HostNumber,
    pub answer: EpochAnswer,
}

/// Lets an event happen, and gives what its host says with it. One that does not apply changes nothing. If memory is refused, the host has given its
/// task up.
pub fn happen(
    cluster: &mut SimulatedEpochs,
    config: Config,
    event: &Event,
) -> Result<Option<Said>, NoMemory>
    ensures { IfOk result (Happens config event.now cluster.old cluster.new) }
{
    match event {
        Event::Start(_) => Ok(None),
        Event::Stop(host) => Ok(stop(cluster, *host)),
        Event::Submit { command, tries } => {
            let task = EpochTask::Submit {
                command: *command,
                tries: *tries,
            };
            begin(cluster, command.host, task)
        }
        Event::Recover { host, tries } => {
            begin(cluster, *host, EpochTask::Recover { tries: *tries })
        }
        Event::Look(host) => begin(cluster, *host, EpochTask::Look),
        Event::Beat(host) => begin(cluster, *host, EpochTask::Beat),
        Event::Mark { host, slot } => mark(cluster, config, *host, *slot),
        Event::Step(host) => step(cluster, *host),
        Event::Tear { host, given } => Ok(tear(cluster, *host, given)),
        Event::FailCall { host, given } => fail(cluster, *host, given),
        Event::DiskCrash { disk, given } => Ok(crash(cluster, *disk, given)),
        Event::DiskGone(disk) => Ok(lose(cluster, *disk)),
    }
}

/// What a host said last, where it has no task under way.
fn said_by(cluster: &SimulatedEpochs, host: HostNumber) -> Option<Said>
    ensures { Says cluster.now host result }
{
    let answer = cluster.answer(host)?;
    Some(Said { host, answer })
}

fn stop(cluster: &mut SimulatedEpochs, host: HostNumber) -> Option<Said>
    ensures { Stops host cluster.old cluster.new result }
{
    cluster.stop(host);
    None
}

/// Gives a host a task, if it is idle and may be given it.
fn begin(
    cluster: &mut SimulatedEpochs,
    host: HostNumber,
    task: EpochTask,
) -> Result<Option<Said>, NoMemory>
    ensures { IfOk result (Undertakes host task cluster.old cluster.new) }
{
    match cluster.begin(host, task) {
        Ok(()) => Ok(said_by(cluster, host)),
        Err(BeginFault::Busy | BeginFault::NotAllowed) => Ok(None),
        Err(BeginFault::NoMemory) => Err(NoMemory),
    }
}

/// Lets a host mark a slot of the epoch where it is.
fn mark(
    cluster: &mut SimulatedEpochs,
    config: Config,
    host: HostNumber,
    slot: u16,
) -> Result<Option<Said>, NoMemory>
    ensures { IfOk result (Marks config host slot cluster.old cluster.new) }
{
    let at = epoch_of(cluster, host);
    match place_of(config, at, slot) {
        Some(place) => begin(cluster, host, EpochTask::Mark { place }),
        None => Ok(None),
    }
}

/// The epoch where a host is.
pub fn epoch_of(cluster: &SimulatedEpochs, host: HostNumber) -> Option<u64>
    ensures { IsAt cluster.now host result }
{
    cluster.host(host).epoch()
}

/// The place of a slot of an epoch, if 64 bits hold it.
#[tactic(auto, unfolding(crate::specs::Happening::place_of))]
fn place_of(config: Config, at: Option<u64>, slot: u16) -> Option<u64>
    ensures { result ≡ place_of config at slot }
{
    let first = at?.checked_mul(u64::from(config.slots()))?;
    first.checked_add(u64::from(slot))
}

/// A host makes the call that it has due, if it has one.
fn step(cluster: &mut SimulatedEpochs, host: HostNumber) -> Result<Option<Said>, NoMemory>
    ensures { IfOk result (Takes host cluster.old cluster.new) }
{
    if cluster.is_idle(host) {
        return Ok(None);
    }
    cluster.step(host)?;
    Ok(said_by(cluster, host))
}

/// The call that a host has due fails, if the disk does not refuse it.
fn fail(
    cluster: &mut SimulatedEpochs,
    host: HostNumber,
    given: &FaultBytes,
) -> Result<Option<Said>, NoMemory>
    ensures { IfOk result (Fails host given.now cluster.old cluster.new) }
{
    if cluster.is_idle(host) {
        return Ok(None);
    }
    if !cluster.may_fail(host) {
        return Ok(None);
    }
    cluster.fail(host, given.as_slice())?;
    Ok(said_by(cluster, host))
}

/// A host stops within the call that it has due, if that is a write that the disk does not refuse.
fn tear(cluster: &mut SimulatedEpochs, host: HostNumber, given: &FaultBytes) -> Option<Said>
    ensures { Tears host given.now cluster.old cluster.new result }
{
    if cluster.is_idle(host) {
        return None;
    }
    if !cluster.may_tear(host) {
        return None;
    }
    cluster.tear(host, given.as_slice());
    None
}

fn crash(cluster: &mut SimulatedEpochs, disk: u8, given: &FaultBytes) -> Option<Said>
    ensures { Crashes disk given.now cluster.old cluster.new result }
{
    if !cluster.may_crash(disk) {
        return None;
    }
    cluster.crash(disk, given.as_slice());
    None
}

fn lose(cluster: &mut SimulatedEpochs, disk: u8) -> Option<Said>
    ensures { Loses disk cluster.old cluster.new result }
{
    if !cluster.may_lose(disk) {
        return None;
    }
    cluster.lose(disk);
    None
}
