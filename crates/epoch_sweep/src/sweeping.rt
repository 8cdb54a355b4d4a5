ghost use Rattle.std.specs.Prelude.{◌≡◌, ◌+◌, ◌*◌, ◌≤◌, ◌++◌, ◌∷◌, [], All, length, IfOk, OnOk};
ghost use Rattle.epoch_sweep.specs.Sweeping.{AllEnd, HasSwept, IsEnded, changed};
ghost use Rattle.epoch_sweep.specs.Counting.{IsSwept};

use crate::ending::{end, follow, happen_once, stop_all};
use crate::interrupting::changes;
use crate::tally::{End, Sweep, count};
use disk::NoMemory;
use epoch_player::happen;
use epoch_script::EpochScript;
use epoch_simulator::SimulatedEpochs;
use lock_script::Event;
use paxos_block::Config;
use std::alloc::{AllocError, Global};

/// Runs each variant of a script: its events with one put before a step that applies, and then a recovery of the first host and one of the last.
pub fn sweep_epochs(alloc: Global, script: &EpochScript) -> Result<Sweep, NoMemory>
    ensures { IfOk result (IsSwept script.now) }
{
    // Called for its contract only: a script has at most a million events.
    let _few = script.events.len();
    let events = script.events.to_vec(alloc)?;
    let ends = ends(alloc, script.config, &events)?;
    Ok(count(&ends))
}

/// How each variant of these events ended.
fn ends(alloc: Global, config: Config, events: &[Event]) -> Result<Vec<End>, NoMemory>
    ensures swept { IfOk result (λ ends. HasSwept config events.now ends.items) }
    ensures few { IfOk result (λ ends. length ends.items ≤ 7 * length events.now) }
    ensures each { IfOk result (λ ends. All (λ end. end.recovered ≤ 2) ends.items) }
{
    let mut cluster = SimulatedEpochs::new(alloc, config)?;
    let mut ends = Vec::new(alloc);
    for place in 0..events.len() {
        let event = &events[place];
        let changes = changes(alloc, &cluster, event)?;
        end_each(alloc, config, events, place, &changes, &mut ends)?;
        happen(&mut cluster, config, event)?;
    }
    Ok(ends)
}

/// Runs the variants with one of these events put before that at `place`, and lists how they ended.
fn end_each(
    alloc: Global,
    config: Config,
    events: &[Event],
    place: usize,
    changes: &[Event],
    ends: &mut Vec<End>,
) -> Result<(), NoMemory>
    requires { place ≤ length events.now }
    ensures few { OnOk result (length ends.new.items ≡ length ends.old.items + length changes.now) }
    ensures each { OnOk result (All (λ end. end.recovered ≤ 2) ends.old.items → All (λ end. end.recovered ≤ 2) ends.new.items) }
    ensures ended { OnOk result (AllEnd config events.now place changes.now ends.old.items ends.new.items) }
{
    for change in changes {
        let end = run_variant(alloc, config, events, place, change)?;
        list(ends, end)?;
    }
    Ok(())
}

fn list(ends: &mut Vec<End>, end: End) -> Result<(), NoMemory>
    ensures { OnOk result (ends.new.items ≡ ends.old.items ++ end ∷ []) }
{
    ends.push(end).map_err(AllocError::from)?;
    Ok(())
}

/// Runs the events with one put before that at `place`, and then the two recoveries.
fn run_variant(
    alloc: Global,
    config: Config,
    events: &[Event],
    place: usize,
    change: &Event,
) -> Result<End, NoMemory>
    requires { place ≤ length events.now }
    ensures few { IfOk result (λ end. end.recovered ≤ 2) }
    ensures ended { IfOk result (IsEnded config (changed events.now place change.now)) }
{
    let mut cluster = SimulatedEpochs::new(alloc, config)?;
    let mut told = Vec::new(alloc);
    follow(&mut cluster, config, &events[..place], &mut told)?;
    happen_once(&mut cluster, config, change, &mut told)?;
    follow(&mut cluster, config, &events[place..], &mut told)?;
    stop_all(&mut cluster, config, &mut told)?;
    end(alloc, &mut cluster, config, &told)
}

#[cfg(test)]
mod tests {
    use super::*;
    use epoch_script::{AnyScript, read_any_script};
    use std::test::Fail;

    #[test]
    fn each_call_is_interrupted(rt: HostRuntime) -> Result<(), Fail> {
        // 27 calls: each is interrupted in four ways, and each of the six that write in three more. No host recovers once the one disk is lost.
        let bytes = b"cluster 1 8 epochs\nsubmit 0 8 enqueue 1 1 1 EX db\nstep 0 40\n";
        let AnyScript::Endless(script) = read_any_script(rt.alloc(), bytes)? else {
            return Err("another kind".into());
        };
        let swept = sweep_epochs(rt.alloc(), &script)?;
        assert_eq!(rt; swept.wrong, 0);
        assert_eq!(rt; swept.runs, 4 * 27 + 3 * 6);
        assert_eq!(rt; swept.recovered, 2 * (3 * 27 + 3 * 6));
        Ok(())
    }
}
