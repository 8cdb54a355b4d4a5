ghost use Rattle.std.specs.Prelude.{◌≤◌, ◌<◌, ◌+◌, ℕ, List, [], Some, None, IfErr, IfOk, OnOk, length, replicate, slice_index_or};
ghost use Rattle.std.specs.Io.KnownBytes.{Appends};
ghost use Rattle.world.specs.Entry.{Filled};
ghost use Rattle.world.specs.Happens.{Step};
ghost use Rattle.simulator.specs.Events.{event_of, events_of, lines_of};
ghost use Rattle.simulator.specs.Kept.{LeadsTo};
ghost use Rattle.dlm_tasks.specs.Faults.{IfRefused};
ghost use Rattle.dlm_tasks.specs.Printed.{WritesAnswer, WritesAnswers, WritesPart, WritesScript, WritesText, IsFrom, IsShowOf, IsViewOf, blocking_text, lines_text, stopped_line};
ghost use Rattle.dlm_tasks.specs.Refusing.{IsNoMemory};

use crate::command_failure::CommandFailure;
use crate::fault::Fault;
use dlm_words::AnswerText;
use inspect::{Blocking, blocking, queues};
use lock_command::HostNumber;
use lock_table::Picture;
use simulator::{Event, MOST_EVENTS, Run, Said, Script, Show, SimulatedCluster, View};
use std::alloc::Global;
use std::io;
use std::io::Write;

/// Lets the script's events happen in turn, to a cluster that begins with the script's log. Prints what the hosts answer, each with its event's number, and between the
/// events the tables that are to be shown there.
pub fn run_script<O: Write>(
    alloc: Global,
    script: &Script,
    out: &mut O,
) -> Result<(), CommandFailure>
    requires { length script.now.log.items ≤ script.now.config.slots }
    ensures written { OnOk result (WritesScript script.now (O.contents out.old) (O.contents out.new)) }
    ensures refused { IfErr result (λ failure. IfRefused failure IsNoMemory) }
{
    let mut cluster = SimulatedCluster::migrated(alloc, script.config, &script.log).map_err(
        Fault::from,
    )?;
    happen_all(alloc, &mut cluster, script, out)
}

/// Lets the script's events happen, prints what is answered with them, and shows each table when its turn comes.
fn happen_all<O: Write>(
    alloc: Global,
    cluster: &mut SimulatedCluster,
    script: &Script,
    out: &mut O,
) -> Result<(), CommandFailure>
    ensures written { OnOk result ((log : List Filled) → LeadsTo log cluster.old →
        WritesText cluster.old.shape log 0 (events_of script.now.events) script.now.shows.items (O.contents out.old) (O.contents out.new)) }
    ensures refused { IfErr result (λ failure. IfRefused failure IsNoMemory) }
{
    let mut shows = script.shows.as_slice();
    let mut place = 0;
    for run in script.events.runs() {
        shows = happen_run(alloc, cluster, place, run, shows, out)?;
        place += run.times;
    }
    show_all(alloc, cluster, shows, out)
}

/// Lets a run of events happen, the first of which has this number, prints what is answered with them, and shows each table that is due before
/// one of them. Gives the shows that are left.
fn happen_run<'a, O: Write>(
    alloc: Global,
    cluster: &mut SimulatedCluster,
    first: usize,
    run: &Run,
    mut shows: &'a [Show],
    out: &mut O,
) -> Result<&'a [Show], CommandFailure>
    requires { first + run.now.times ≤ MOST_EVENTS }
    ensures written { IfOk result (λ left. (log : List Filled) → LeadsTo log cluster.old →
        WritesPart log (replicate run.now.times (event_of run.now.event)) first shows.now left.now cluster.old cluster.new (O.contents out.old) (O.contents out.new)) }
    ensures refused { IfErr result (λ failure. IfRefused failure IsNoMemory) }
{
    let mut made = 0;
    while made < run.times {
        shows = show_due(alloc, cluster, shows, first + made, out)?;
        let times = times_before(shows, first + made, run.times - made);
        repeat(alloc, cluster, first + made, &run.event, times, out)?;
        made += times;
    }
    Ok(shows)
}

/// How many of so many events that are left, the first of which has this number, happen before a table is shown.
fn times_before(shows: &[Show], first: usize, left: usize) -> usize
    requires ahead { IsFrom (first + 1) shows.now }
    ensures some { 0 < left → 0 < result }
    ensures few { result ≤ left }
    ensures before { IsFrom (first + result) shows.now }
{
    match shows.first() {
        None => left,
        Some(show) => left.min(show.place - first),
    }
}

/// Lets an event happen so many times, the first of which has this number, and prints what is answered with them.
fn repeat<O: Write>(
    alloc: Global,
    cluster: &mut SimulatedCluster,
    first: usize,
    event: &Event,
    times: usize,
    out: &mut O,
) -> Result<(), CommandFailure>
    requires { first + times ≤ MOST_EVENTS }
    ensures written { OnOk result ((log : List Filled) → LeadsTo log cluster.old →
        WritesAnswers log (replicate times (event_of event.now)) first cluster.old cluster.new (O.contents out.old) (O.contents out.new)) }
    ensures refused { IfErr result (λ failure. IfRefused failure IsNoMemory) }
{
    match event {
        Event::Step(host) => repeat_steps(cluster, first, *host, times, out),
        _ => repeat_event(alloc, cluster, first, event, times, out),
    }
}

/// Lets an event happen so many times, the first of which has this number, and prints what is answered with it.
fn repeat_event<O: Write>(
    alloc: Global,
    cluster: &mut SimulatedCluster,
    first: usize,
    event: &Event,
    times: usize,
    out: &mut O,
) -> Result<(), CommandFailure>
    requires { first + times ≤ MOST_EVENTS }
    ensures written { OnOk result ((log : List Filled) → LeadsTo log cluster.old →
        WritesAnswers log (replicate times (event_of event.now)) first cluster.old cluster.new (O.contents out.old) (O.contents out.new)) }
    ensures refused { IfErr result (λ failure. IfRefused failure IsNoMemory) }
{
    for place in first..first + times {
        happen(alloc, cluster, place, event, out)?;
    }
    Ok(())
}

/// Lets a host make so many steps, the first of which has this number, and prints what it says with them.
fn repeat_steps<O: Write>(
    cluster: &mut SimulatedCluster,
    first: usize,
    host: HostNumber,
    times: usize,
    out: &mut O,
) -> Result<(), CommandFailure>
    requires { first + times ≤ MOST_EVENTS }
    ensures written { OnOk result ((log : List Filled) → LeadsTo log cluster.old →
        WritesAnswers log (replicate times (Step host)) first cluster.old cluster.new (O.contents out.old) (O.contents out.new)) }
    ensures refused { IfErr result (λ failure. IfRefused failure IsNoMemory) }
{
    let mut made = 0;
    while made < times {
        made += happen_steps(cluster, first + made, host, times - made, out)?;
    }
    Ok(())
}

/// Lets a host make so many steps at most, the first of which has this number, until it says something, and prints that. Gives how
/// many it made.
fn happen_steps<O: Write>(
    cluster: &mut SimulatedCluster,
    first: usize,
    host: HostNumber,
    most: usize,
    out: &mut O,
) -> Result<usize, CommandFailure>
    requires room { first + most ≤ MOST_EVENTS }
    requires some { 1 ≤ most }
    ensures made { IfOk result (λ made. (1 ≤ made) × (made ≤ most)) }
    ensures written { IfOk result (λ made. (log : List Filled) → LeadsTo log cluster.old →
        WritesAnswers log (replicate made (Step host)) first cluster.old cluster.new (O.contents out.old) (O.contents out.new)) }
    ensures refused { IfErr result (λ failure. IfRefused failure IsNoMemory) }
{
    let (made, said) = cluster.steps(host, most);
    if let Some(said) = said {
        tell(first + made - 1, &said, out)?;
    }
    Ok(made)
}

/// Lets an event happen, and prints what its host then says.
fn happen<O: Write>(
    alloc: Global,
    cluster: &mut SimulatedCluster,
    place: usize,
    event: &Event,
    out: &mut O,
) -> Result<(), CommandFailure>
    ensures written { OnOk result ((log : List Filled) → LeadsTo log cluster.old →
        WritesAnswer log event.now place cluster.old cluster.new (O.contents out.old) (O.contents out.new)) }
    ensures refused { IfErr result (λ failure. IfRefused failure IsNoMemory) }
{
    if let Some(said) = cluster.event(alloc, event).map_err(Fault::from)? {
        tell(place, &said, out)?;
    }
    Ok(())
}

/// Prints what a host said with the event of this number.
fn tell<O: Write>(place: usize, said: &Said, out: &mut O) -> io::Result<()>
    ensures { OnOk result (Appends (O.contents out.old) (O.contents out.new) (lines_text (lines_of place (Some said.now)))) }
{
    let host = said.host.get();
    let answer = AnswerText(said.answer);
    writeln!(out, "{place} h{host} {answer}")
}

/// Shows what is due after so many events, and gives what is left.
fn show_due<'a, O: Write>(
    alloc: Global,
    cluster: &SimulatedCluster,
    mut shows: &'a [Show],
    place: usize,
    out: &mut O,
) -> Result<&'a [Show], CommandFailure>
    ensures written { IfOk result (λ left. (log : List Filled) → LeadsTo log cluster.now →
        WritesPart log [] place shows.now left.now cluster.now cluster.now (O.contents out.old) (O.contents out.new)) }
    ensures ahead { IfOk result (λ left. IsFrom (place + 1) left.now) }
    ensures refused { IfErr result (λ failure. IfRefused failure IsNoMemory) }
{
    while let Some((show, later)) = shows.split_first() {
        if show.place > place {
            break;
        }
        show_host(alloc, cluster, show, out)?;
        shows = later;
    }
    Ok(shows)
}

/// Shows what is left after all events.
fn show_all<O: Write>(
    alloc: Global,
    cluster: &SimulatedCluster,
    shows: &[Show],
    out: &mut O,
) -> Result<(), CommandFailure>
    ensures written { OnOk result ((log : List Filled) (place : ℕ) → LeadsTo log cluster.now →
        WritesText cluster.now.shape log place [] shows.now (O.contents out.old) (O.contents out.new)) }
    ensures refused { IfErr result (λ failure. IfRefused failure IsNoMemory) }
{
    for show in shows {
        show_host(alloc, cluster, show, out)?;
    }
    Ok(())
}

/// Prints what is to be shown of a host's table, or that it is stopped.
fn show_host<O: Write>(
    alloc: Global,
    cluster: &SimulatedCluster,
    show: &Show,
    out: &mut O,
) -> Result<(), CommandFailure>
    ensures written { OnOk result ((text : List ℕ) × IsShowOf show.now (slice_index_or cluster.now.hosts show.now.host None) text
        × Appends (O.contents out.old) (O.contents out.new) text) }
    ensures refused { IfErr result (λ failure. IfRefused failure IsNoMemory) }
{
    let host = show.host.get();
    match cluster.host(host) {
        None => print_stopped(host, out)?,
        Some(core) => {
            let picture = core.table().picture(alloc).map_err(Fault::from)?;
            show_view(&picture, show.view, out)?;
        }
    }
    Ok(())
}

fn print_stopped<O: Write>(host: u8, out: &mut O) -> io::Result<()>
    ensures { OnOk result (Appends (O.contents out.old) (O.contents out.new) (stopped_line host)) }
{
    writeln!(out, "host {host} is stopped")
}

/// Prints the queues of a picture, or what blocks whom in it.
fn show_view<O: Write>(picture: &Picture, view: View, out: &mut O) -> io::Result<()>
    ensures { OnOk result ((text : List ℕ) × IsViewOf view picture.now text × Appends (O.contents out.old) (O.contents out.new) text) }
{
    match view {
        View::Queues => queues(picture, out),
        View::Blocking => show_blocking(&blocking(picture), out),
    }
}

/// Prints the clients of a cycle, or that there is none.
fn show_blocking<O: Write>(found: &Blocking, out: &mut O) -> io::Result<()>
    ensures { OnOk result (Appends (O.contents out.old) (O.contents out.new) (blocking_text found.now)) }
{
    match found {
        Blocking::Ranked(_) => out.write_all(b"no cycle\n"),
        Blocking::Cycle(clients) => {
            out.write_all(b"cycle")?;
            for client in clients.as_slice() {
                write!(out, " {client}")?;
            }
            out.write_all(b"\n")
        }
    }
}
