ghost use Rattle.std.specs.Prelude.{◌≡◌, ◌<◌, vec_len, vec_capacity, true, false, IsSome, OnOk, slice_index_or, List};
ghost use Rattle.world.specs.Entry.{Filled};
ghost use Rattle.world.specs.World.{world};
ghost use Rattle.host.specs.Host.{learned_of};
ghost use Rattle.lock_table.specs.Apply.{table_after};
ghost use Rattle.lock_table.specs.Picture.{IsPictureOf};
ghost use Rattle.simulator.specs.Answers.{line_of, is_pictured, may_be_pictured, IsPictured, AddsAnswer};
ghost use Rattle.simulator.specs.Events.{event_of};
ghost use Rattle.simulator.specs.Kept.{LeadsTo};

use crate::answer::Answer;
use crate::simulated_cluster::{Said, SimulatedCluster};
use disk::NoMemory;
use host::HostAnswer;
use lock_command::HostNumber;
use lock_script::Event;
use lock_table::Picture;
use std::alloc::Global;
use std::marker::Model;

/// Room for the picture of the next recovery or look, made before an event happens.
#[derive(Drop)]
pub struct Room {
    picture: Option<Picture>,
}

impl Model for Room {
    ghost use Rattle.std.specs.Prelude.{Bool, is_some};

    ghost Value = { Bool };

    ghost view = { λ room. is_some room.picture };
}

impl Room {
    /// No room yet.
    pub fn new() -> Room
        ensures { result ≡ false }
    {
        Room { picture: None }
    }

    /// Makes room where there is none, if a recovery or a look may end with the event.
    pub fn prepare(&mut self, alloc: Global, event: &Event) -> Result<(), NoMemory>
        ensures { OnOk result (may_be_pictured (event_of event.now) ≡ true → self.new ≡ true) }
    {
        if may_be_pictured(event) && self.picture.is_none() {
            let Ok(picture) = Picture::room(alloc) else {
                return Err(NoMemory);
            };
            self.picture = Some(picture);
        }
        Ok(())
    }

    /// Adds what a host said to answers that have room for one more, as a report lists it.
    pub fn list(
        &mut self,
        cluster: &SimulatedCluster,
        place: usize,
        said: &Said,
        answers: &mut Vec<Answer>,
    )
        requires room { is_pictured said.now.answer ≡ true → self.old ≡ true }
        requires runs { IsSome (slice_index_or cluster.now.hosts said.now.host None) }
        requires reserved { vec_len answers.old < vec_capacity answers.old }
        ensures { AddsAnswer cluster.now place said.now answers.old.items answers.new.items }
    {
        let said = Said {
            host: said.host,
            answer: said.answer,
        };
        let answer = self.listed(cluster, place, said);
        answers.push_reserved(answer);
    }

    /// What a host said, as a report lists it.
    pub fn listed(&mut self, cluster: &SimulatedCluster, place: usize, said: Said) -> Answer
        requires room { is_pictured said.answer ≡ true → self.old ≡ true }
        requires runs { IsSome (slice_index_or cluster.now.hosts said.host None) }
        ensures line { line_of result ≡ record { place = place; host = said.host; said = said.answer } }
        ensures picture { (log : List Filled) → LeadsTo log cluster.now → IsPictured (world cluster.now.shape log) result }
    {
        let Said { host, answer } = said;
        let picture = match answer {
            HostAnswer::Recovered { .. } => Some(self.filled(cluster, host)),
            HostAnswer::Looked { .. } => Some(self.filled(cluster, host)),
            HostAnswer::Ack { .. }
            | HostAnswer::Beaten { .. }
            | HostAnswer::Marked { .. }
            | HostAnswer::Refused(_) => None,
        };
        Answer {
            place,
            host,
            said: answer,
            picture,
        }
    }

    // The room is used up.
    fn filled(&mut self, cluster: &SimulatedCluster, host: HostNumber) -> Picture
        requires room { self.old ≡ true }
        requires runs { IsSome (slice_index_or cluster.now.hosts host None) }
        ensures { (log : List Filled) → LeadsTo log cluster.now → IsPictureOf result (table_after (learned_of ((world cluster.now.shape log).host host))) }
    {
        let Some(core) = cluster.host(host.get()) else {
            unreachable!()
        };
        let Some(mut picture) = self.picture.take() else {
            unreachable!()
        };
        picture.fill(core.table());
        picture
    }
}

/// Whether a recovery or a look may end with the event.
fn may_be_pictured(event: &Event) -> bool
    ensures { result ≡ may_be_pictured (event_of event.now) }
{
    match event {
        Event::Recover { .. } | Event::Look(_) | Event::Step(_) | Event::FailCall { .. } => true,
        Event::Start(_)
        | Event::Stop(_)
        | Event::Submit { .. }
        | Event::Beat(_)
        | Event::Mark { .. }
        | Event::Tear { .. }
        | Event::DiskCrash { .. }
        | Event::DiskGone(_) => false,
    }
}
