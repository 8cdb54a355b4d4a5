ghost use Rattle.std.specs.Prelude.{◌≤◌, ◌+◌, ◌∷◌, [], Some, IfOk, OnOk, replicate};
ghost use Rattle.std.specs.Io.KnownBytes.{Appends};
ghost use Rattle.epoch_player.specs.Playing.{IsFrom, Plays, PlaysPart, ShowsDue, ShowsLeft, WritesPlay};
ghost use Rattle.epoch_player.specs.Text.{said_text};

use crate::answer_text::AnswerText;
use crate::failure::PlayFailure;
use crate::happening::{Said, happen};
use crate::showing::show_host;
use epoch_script::EpochScript;
use epoch_simulator::{SimulatedEpochs, runs_have_one_log};
use lock_script::{Event, MOST_EVENTS, Run, Show};
use paxos_block::Config;
use std::alloc::Global;
use std::io;
use std::io::Write;

/// Lets the script's events happen in turn, to hosts that know nothing and disks of zeros. Prints what the hosts answer, each with its event's number, and
/// between the events the tables that are to be shown there.
pub fn play<O: Write>(alloc: Global, script: &EpochScript, out: &mut O) -> Result<(), PlayFailure>
    ensures { OnOk result (WritesPlay script.now (O.contents out.old) (O.contents out.new)) }
{
    let mut cluster = SimulatedEpochs::new(alloc, script.config)?;
    // Called for its contract only: it says that what is done is one log.
    runs_have_one_log();
    happen_all(alloc, &mut cluster, script, out)
}

/// Lets the script's events happen, prints what is answered with them, and shows each table when its turn comes.
fn happen_all<O: Write>(
    alloc: Global,
    cluster: &mut SimulatedEpochs,
    script: &EpochScript,
    out: &mut O,
) -> Result<(), PlayFailure>
    ensures { OnOk result (Plays script.now cluster.old cluster.new (O.contents out.old) (O.contents out.new)) }
{
    let mut shows = script.shows.as_slice();
    let mut place = 0;
    for run in script.events.runs() {
        shows = happen_run(alloc, cluster, script.config, place, run, shows, out)?;
        place += run.times;
    }
    show_all(alloc, cluster, shows, out)
}

/// Lets a run of events happen, the first of which has this number, prints what is answered with them, and shows each table that is due before one of
/// them. Gives the shows that are left.
fn happen_run<'a, O: Write>(
    alloc: Global,
    cluster: &mut SimulatedEpochs,
    config: Config,
    first: usize,
    run: &Run,
    mut shows: &'a [Show],
    out: &mut O,
) -> Result<&'a [Show], PlayFailure>
    requires { first + run.now.times ≤ MOST_EVENTS }
    ensures { IfOk result (λ left. PlaysPart config (replicate run.now.times run.now.event) first shows.now left.now
        cluster.old cluster.new (O.contents out.old) (O.contents out.new)) }
{
    for place in first..first + run.times {
        shows = happen_once(alloc, cluster, config, place, &run.event, shows, out)?;
    }
    Ok(shows)
}

/// Shows what is due before the event of this number, lets that happen, and prints what is answered with it.
fn happen_once<'a, O: Write>(
    alloc: Global,
    cluster: &mut SimulatedEpochs,
    config: Config,
    place: usize,
    event: &Event,
    shows: &'a [Show],
    out: &mut O,
) -> Result<&'a [Show], PlayFailure>
    ensures { IfOk result (λ left. PlaysPart config (event.now ∷ []) place shows.now left.now
        cluster.old cluster.new (O.contents out.old) (O.contents out.new)) }
{
    let left = show_due(alloc, cluster, shows, place, out)?;
    match happen(cluster, config, event)? {
        None => Ok(left),
        Some(said) => {
            tell(place, &said, out)?;
            Ok(left)
        }
    }
}

/// Prints what a host said with the event of this number.
fn tell<O: Write>(place: usize, said: &Said, out: &mut O) -> io::Result<()>
    ensures { OnOk result (Appends (O.contents out.old) (O.contents out.new) (said_text place (Some said.now))) }
{
    let host = said.host.get();
    let answer = AnswerText(said.answer);
    writeln!(out, "{place} h{host} {answer}")
}

/// Shows what is due after so many events, and gives what is left.
fn show_due<'a, O: Write>(
    alloc: Global,
    cluster: &SimulatedEpochs,
    mut shows: &'a [Show],
    place: usize,
    out: &mut O,
) -> Result<&'a [Show], PlayFailure>
    ensures shown { IfOk result (λ left. ShowsDue place shows.now left.now cluster.now (O.contents out.old) (O.contents out.new)) }
    ensures ahead { IfOk result (λ left. IsFrom (place + 1) left.now) }
{
    while let Some((show, later)) = shows.split_first() {
        if show.place > place {
            break;
        }
        show_host(alloc, cluster, show, out)?;
        shows = later;
    }
    Ok(shows)
}

/// Shows what is left after all events.
fn show_all<O: Write>(
    alloc: Global,
    cluster: &SimulatedEpochs,
    shows: &[Show],
    out: &mut O,
) -> Result<(), PlayFailure>
    ensures { OnOk result (ShowsLeft shows.now cluster.now (O.contents out.old) (O.contents out.new)) }
{
    for show in shows {
        show_host(alloc, cluster, show, out)?;
    }
    Ok(())
}

#[cfg(test)]
mod tests {
    use super::*;
    use epoch_script::{AnyScript, read_any_script};
    use std::test::Fail;

    #[test]
    fn answers_and_tables_are_printed(rt: HostRuntime) -> Result<(), Fail> {
        let bytes =
            b"cluster 1 8 epochs\nshow 0\nsubmit 0 8 enqueue 1 1 1 EX db\nstep 0 200\nshow 0\nblocking 0\nmark 0 1\nstep 0 20\n";
        let AnyScript::Endless(script) = read_any_script(rt.alloc(), bytes)? else {
            return Err("another kind".into());
        };
        let mut out = Vec::new(rt.alloc());
        play(rt.alloc(), &script, &mut out)?;
        let told =
            b"h0 in no epoch\nno table\n27 h0 ack 0 Granted\nh0 in epoch 0\ndb\n  granted 1 1 0 EX\nh0 in epoch 0\nno cycle\n201 h0 refused 30 NotLearned\n";
        assert_eq!(rt; out.as_slice(), told.as_slice());
        Ok(())
    }
}
