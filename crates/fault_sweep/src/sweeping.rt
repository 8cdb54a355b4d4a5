ghost use Rattle.std.specs.Prelude.{◌≡◌, ◌+◌, ◌*◌, ◌≤◌, [], true, None, length, sum_by, IfOk, IfSome, IsSome, OnOk};
ghost use Rattle.lock_script.specs.declared.events.TheConstants.{MOST_EVENTS};
ghost use Rattle.simulator.specs.Events.{event_of, events_of, opening_of};
ghost use Rattle.fault_sweep.specs.Replayed.{IsOf};
ghost use Rattle.fault_sweep.specs.Sweeping.{changed, recovered_behind, variants};

use crate::interrupting::changes;
use crate::replay::Replay;
use crate::tally::Sweep;
use disk::NoMemory;
use lock_command::Command;
use lock_script::{Event, Script};
use paxos_block::Config;
use simulator::SimulatedCluster;
use std::alloc::Global;

/// Runs each variant of a script: its events with one put before a step that applies, and then a recovery of the first host
/// and one of the last.
pub fn sweep(alloc: Global, script: &Script) -> Result<Sweep, NoMemory>
    requires { length script.now.log.items ≤ script.now.config.slots }
    ensures runs { IfOk result (λ swept. swept.runs ≡ length (variants (opening_of script.now) (events_of script.now.events))) }
    ensures recovered { IfOk result (λ swept. swept.recovered ≡
        sum_by (recovered_behind (opening_of script.now)) (variants (opening_of script.now) (events_of script.now.events))) }
    ensures wrong { IfOk result (λ swept. swept.wrong ≡ 0) }
    ensures first { IfOk result (λ swept. swept.first ≡ None) }
{
    // Called for its contract only: a script has at most a million events.
    let _few = script.events.len();
    let events = script.events.to_vec(alloc)?;
    let mut cluster = SimulatedCluster::migrated(alloc, script.config, &script.log)?;
    let mut sweep = Sweep::none();
    let mut kept = None;
    for place in 0..events.len() {
        let event = &events[place];
        let changes = changes(alloc, &mut cluster, event)?;
        sweep_place(
            alloc,
            script.config,
            &script.log,
            &mut kept,
            &events,
            place,
            &changes,
            &mut sweep,
        )?;
        cluster.event(alloc, event)?;
    }
    Ok(sweep)
}

/// Runs the variants with one of these events put before that at `place`.
fn sweep_place(
    alloc: Global,
    config: Config,
    log: &[Command],
    kept: &mut Option<Replay>,
    events: &[Event],
    place: usize,
    changes: &[Event],
    sweep: &mut Sweep,
) -> Result<(), NoMemory>
    requires log { length log.now ≤ config.slots }
    requires kept { IfSome kept.old (λ replay. replay.cluster.shape ≡ config) }
    requires place { place ≤ length events.now }
    requires few { (length changes.now ≤ 6) × (sweep.old.runs ≤ 6000000) }
    requires events { length events.now ≤ MOST_EVENTS }
    requires counted { (sweep.old.recovered ≤ 2 * sweep.old.runs) × (sweep.old.wrong ≤ sweep.old.runs) }
    ensures runs { OnOk result (sweep.new.runs ≡ sweep.old.runs + length changes.now) }
    ensures recovered { OnOk result (sweep.new.recovered ≡ sweep.old.recovered
        + sum_by (λ change. recovered_behind (record { shape = config; moved = log.now }) (changed (events_of events.now) place (event_of change))) changes.now) }
    ensures counted { (sweep.new.recovered ≤ 2 * sweep.new.runs) × (sweep.new.wrong ≤ sweep.new.runs) }
    ensures kept { OnOk result (IfSome kept.new (λ replay. replay.cluster.shape ≡ config)) }
    ensures right { OnOk result ((sweep.new.wrong ≡ sweep.old.wrong) × (sweep.new.first ≡ sweep.old.first)) }
{
    for change in changes {
        let (recovered, right) = run_variant(alloc, config, log, kept, events, place, change)?;
        sweep.count(recovered, right);
    }
    Ok(())
}

/// Runs the events with one put before that at `place`, and then the two recoveries. Gives how many of these answered, and
/// whether the run went by what they learned.
fn run_variant(
    alloc: Global,
    config: Config,
    log: &[Command],
    kept: &mut Option<Replay>,
    events: &[Event],
    place: usize,
    change: &Event,
) -> Result<(usize, bool), NoMemory>
    requires log { length log.now ≤ config.slots }
    requires kept { IfSome kept.old (λ replay. replay.cluster.shape ≡ config) }
    requires place { place ≤ length events.now }
    requires events { length events.now ≤ MOST_EVENTS }
    ensures kept { OnOk result (IfSome kept.new (λ replay. replay.cluster.shape ≡ config)) }
    ensures few { IfOk result (λ end. end.0 ≤ 2) }
    ensures right { IfOk result (λ end. end.1 ≡ true) }
    ensures recovered { IfOk result (λ end. end.0 ≡ recovered_behind (record { shape = config; moved = log.now }) (changed (events_of events.now) place (event_of change.now))) }
{
    begin(alloc, config, log, kept)?;
    let Some(replay) = kept else { unreachable!() };
    replay.follow(alloc, &events[..place])?;
    replay.happen(alloc, change)?;
    replay.follow(alloc, &events[place..])?;
    replay.end(alloc)
}

/// Makes a replay to which nothing has happened yet: of the one that is kept, so that its disks are used anew, or a new one.
fn begin(
    alloc: Global,
    config: Config,
    log: &[Command],
    kept: &mut Option<Replay>,
) -> Result<(), NoMemory>
    requires log { length log.now ≤ config.slots }
    requires kept { IfSome kept.old (λ replay. replay.cluster.shape ≡ config) }
    ensures there { OnOk result (IsSome kept.new) }
    ensures fresh { OnOk result (IfSome kept.new (IsOf (record { opening = record { shape = config; moved = log.now }; events = [] }))) }
{
    match kept {
        Some(replay) => replay.restart(alloc, log),
        None => {
            *kept = Some(Replay::new(alloc, config, log)?);
            Ok(())
        }
    }
}
