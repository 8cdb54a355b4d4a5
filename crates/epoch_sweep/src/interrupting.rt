ghost use Rattle.std.specs.Prelude.{◌≡◌, ◌≤◌, ◌++◌, ◌∷◌, [], IfOk, OnOk, Some, length};
ghost use Rattle.lock_script.specs.declared.event.Event.TheVariants.{Tear, DiskCrash};
ghost use Rattle.epoch_sweep.specs.Sweeping.{changes, next_of, ways};

use disk::NoMemory;
use epoch_simulator::SimulatedEpochs;
use lock_command::HostNumber;
use lock_script::{Event, FaultBytes};
use std::alloc::{AllocError, Global};

/// What a sweep puts before an event. Before a step that applies: each way in which the host or the disk may be interrupted there. Before any other event:
/// nothing.
pub fn changes(
    alloc: Global,
    cluster: &SimulatedEpochs,
    event: &Event,
) -> Result<Vec<Event>, NoMemory>
    ensures few { IfOk result (λ changes. length changes.items ≤ 7) }
    ensures changes { IfOk result (λ put. put.items ≡ changes cluster.now event.now) }
{
    let Event::Step(host) = event else {
        return Ok(Vec::new(alloc));
    };
    match next_call(cluster, *host) {
        None => Ok(Vec::new(alloc)),
        Some((disk, tears)) => ways(alloc, *host, disk, tears),
    }
}

/// The disk of the call that a host has due, and whether the call may be torn. None, if the host is idle.
fn next_call(cluster: &SimulatedEpochs, host: HostNumber) -> Option<(u8, bool)>
    ensures { result ≡ next_of cluster.now host }
{
    if cluster.is_idle(host) {
        return None;
    }
    let disk = cluster.host(host).call().disk;
    Some((disk, cluster.may_tear(host)))
}

/// The ways in which a host may be interrupted before a call on this disk, which may be torn or not.
fn ways(alloc: Global, host: HostNumber, disk: u8, tears: bool) -> Result<Vec<Event>, NoMemory>
    ensures few { IfOk result (λ events. length events.items ≤ 7) }
    ensures ways { IfOk result (λ events. events.items ≡ ways host (Some (disk, tears))) }
{
    let mut ways = Vec::new(alloc);
    add(&mut ways, Event::Stop(host))?;
    if tears {
        add_torn(alloc, host, 0x00, &mut ways)?;
        add_torn(alloc, host, 0xff, &mut ways)?;
        add_torn(alloc, host, 0xa5, &mut ways)?;
    }
    add_crash(alloc, disk, 0x00, &mut ways)?;
    add_crash(alloc, disk, 0xff, &mut ways)?;
    add(&mut ways, Event::DiskGone(disk))?;
    Ok(ways)
}

fn add_torn(
    alloc: Global,
    host: HostNumber,
    byte: u8,
    events: &mut Vec<Event>,
) -> Result<(), NoMemory>
    ensures { OnOk result (events.new.items ≡ events.old.items ++ Tear host (byte ∷ []) ∷ []) }
{
    let given = given(alloc, byte)?;
    add(events, Event::Tear { host, given })
}

fn add_crash(alloc: Global, disk: u8, byte: u8, events: &mut Vec<Event>) -> Result<(), NoMemory>
    ensures { OnOk result (events.new.items ≡ events.old.items ++ DiskCrash disk (byte ∷ []) ∷ []) }
{
    let given = given(alloc, byte)?;
    add(events, Event::DiskCrash { disk, given })
}

fn add(events: &mut Vec<Event>, event: Event) -> Result<(), NoMemory>
    ensures { OnOk result (events.new.items ≡ events.old.items ++ event ∷ []) }
{
    events.push(event).map_err(AllocError::from)?;
    Ok(())
}

/// One byte.
fn given(alloc: Global, byte: u8) -> Result<FaultBytes, NoMemory>
    ensures { IfOk result (λ given. given ≡ byte ∷ []) }
{
    let mut bytes = Vec::new(alloc);
    bytes.push(byte).map_err(AllocError::from)?;
    Ok(FaultBytes::new(bytes))
}
