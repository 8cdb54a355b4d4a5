ghost use Rattle.std.specs.Prelude.{◌≡◌, ◌≤◌, IfOk, All, length, map};
ghost use Rattle.world.specs.Happens.{run, answers};
ghost use Rattle.world.specs.Opening.{blank, run_of, answers_to};
ghost use Rattle.world_served.specs.Served.{ServesAlone};
ghost use Rattle.simulator.specs.Events.{events_of};
ghost use Rattle.simulator.specs.Answers.{line_of, IsPicturedIn};
ghost use Rattle.simulator.specs.OneLog.{TellsOneLog};

use crate::answer::Answer;
use crate::room::Room;
use crate::simulated_cluster::SimulatedCluster;
use disk::NoMemory;
use lock_command::Command;
use lock_script::Event;
use paxos_block::Config;
use std::alloc::Global;
use std::marker::Model;
use world_served::alone_submissions_are_served;

/// What the hosts answered, in the order of the events.
#[derive(Drop)]
pub struct Report {
    answers: Vec<Answer>,
}

impl Model for Report {
    ghost use Rattle.std.specs.Prelude.{List};
    ghost use Rattle.simulator.specs.declared.answer.Answer.{Answer};

    ghost Value = { List Answer };

    ghost view = { λ report. report.answers.items };
}

impl Report {
    /// A report of answers that were kept elsewhere.
    pub fn of(answers: Vec<Answer>) -> Report
        ensures { result ≡ answers.items }
    {
        Report { answers }
    }

    /// The answers, by rising place.
    pub fn answers(&self) -> &[Answer]
        ensures { result.now ≡ self.now }
    {
        &self.answers
    }
}

/// Lets events happen to a new cluster, one after the other, and lists what its hosts answer.
pub fn run(alloc: Global, config: Config, events: &[Event]) -> Result<Report, NoMemory>
    ensures answers { IfOk result (λ report. map line_of report ≡ answers config (events_of events.now)) }
    ensures pictures { IfOk result (λ report. All (IsPicturedIn (blank config) (events_of events.now)) report) }
    ensures one_log { IfOk result (λ report. TellsOneLog (blank config) (events_of events.now) report) }
    // Of these events, whatever is listed: a submission whose host is left alone is served, within seventeen calls a disk and slot.
    ensures alone { IfOk result (λ _. ServesAlone config (run config (events_of events.now))) }
{
    run_migrated(alloc, config, &[], events)
}

/// The same, where the disks begin as a complete migration of these commands left them.
pub fn run_migrated(
    alloc: Global,
    config: Config,
    log: &[Command],
    events: &[Event],
) -> Result<Report, NoMemory>
    requires { length log.now ≤ config.slots }
    ensures answers { IfOk result (λ report. map line_of report ≡ answers_to (record { shape = config; moved = log.now }) (events_of events.now)) }
    ensures pictures { IfOk result (λ report. All (IsPicturedIn (record { shape = config; moved = log.now }) (events_of events.now)) report) }
    ensures one_log { IfOk result (λ report. TellsOneLog (record { shape = config; moved = log.now }) (events_of events.now) report) }
    ensures alone { IfOk result (λ _. ServesAlone config (run_of (record { shape = config; moved = log.now }) (events_of events.now))) }
{
    let _disks = config.disks();
    alone_submissions_are_served();
    let mut cluster = SimulatedCluster::migrated(alloc, config, log)?;
    let mut room = Room::new();
    let mut answers = Vec::new(alloc);
    for (place, event) in events.iter().enumerate() {
        room.prepare(alloc, event)?;
        answers.reserve(1)?;
        if let Some(said) = cluster.event(alloc, event)? {
            answers.push_reserved(room.listed(&cluster, place, said));
        }
    }
    Ok(Report { answers })
}
