ghost use Rattle.std.specs.Prelude.{◌≡◌, ◌≤◌, ◌++◌, ◌∷◌, [], List, IfOk, OnOk, Some, length};
ghost use Rattle.lock_script.specs.declared.event.Event.TheVariants.{Tear, DiskCrash};
ghost use Rattle.world.specs.Entry.{Filled};
ghost use Rattle.world.specs.World.{world};
ghost use Rattle.simulator.specs.Events.{event_of, events_of};
ghost use Rattle.simulator.specs.Kept.{LeadsTo};
ghost use Rattle.fault_sweep.specs.Sweeping as sweeping;

use disk::NoMemory;
use lock_command::HostNumber;
use lock_script::{Event, FaultBytes};
use simulator::SimulatedCluster;
use std::alloc::{AllocError, Global};

/// What a sweep puts before an event. Before a step that applies: each way in which the host or the disk may be interrupted
/// there. Before any other event: nothing.
pub fn changes(
    alloc: Global,
    cluster: &mut SimulatedCluster,
    event: &Event,
) -> Result<Vec<Event>, NoMemory>
    ensures unchanged { cluster.new ≡ cluster.old }
    ensures few { IfOk result (λ changes. length changes.items ≤ 6) }
    ensures changes { IfOk result (λ changes. (log : List Filled) → LeadsTo log cluster.old →
        events_of changes.items ≡ sweeping.changes cluster.old.shape (world cluster.old.shape log) (event_of event.now)) }
{
    let Event::Step(host) = event else {
        return Ok(Vec::new(alloc));
    };
    match cluster.next_call(*host) {
        None => Ok(Vec::new(alloc)),
        Some((disk, tears)) => ways(alloc, *host, disk, tears),
    }
}

/// The ways in which a host may be interrupted before a call on this disk, which may be torn or not.
fn ways(alloc: Global, host: HostNumber, disk: u8, tears: bool) -> Result<Vec<Event>, NoMemory>
    ensures few { IfOk result (λ ways. length ways.items ≤ 6) }
    ensures ways { IfOk result (λ ways. events_of ways.items ≡ sweeping.ways host (Some (disk, tears))) }
{
    let mut ways = Vec::new(alloc);
    add(&mut ways, Event::Stop(host))?;
    if tears {
        add_torn(alloc, host, 0x00, &mut ways)?;
        add_torn(alloc, host, 0xff, &mut ways)?;
        add_torn(alloc, host, 0xa5, &mut ways)?;
    }
    add_crash(alloc, disk, 0x00, &mut ways)?;
    add_crash(alloc, disk, 0xff, &mut ways)?;
    Ok(ways)
}

fn add_torn(
    alloc: Global,
    host: HostNumber,
    byte: u8,
    events: &mut Vec<Event>,
) -> Result<(), NoMemory>
    ensures { OnOk result (events.new.items ≡ events.old.items ++ Tear host (byte ∷ []) ∷ []) }
{
    let given = given(alloc, byte)?;
    add(events, Event::Tear { host, given })
}

fn add_crash(alloc: Global, disk: u8, byte: u8, events: &mut Vec<Event>) -> Result<(), NoMemory>
    ensures { OnOk result (events.new.items ≡ events.old.items ++ DiskCrash disk (byte ∷ []) ∷ []) }
{
    let given = given(alloc, byte)?;
    add(events, Event::DiskCrash { disk, given })
}

fn add(events: &mut Vec<Event>, event: Event) -> Result<(), NoMemory>
    ensures { OnOk result (events.new.items ≡ events.old.items ++ event ∷ []) }
{
    events.push(event).map_err(AllocError::from)?;
    Ok(())
}

/// One byte.
fn given(alloc: Global, byte: u8) -> Result<FaultBytes, NoMemory>
    ensures { IfOk result (λ given. given ≡ byte ∷ []) }
{
    let mut bytes = Vec::new(alloc);
    bytes.push(byte).map_err(AllocError::from)?;
    Ok(FaultBytes::new(bytes))
}
