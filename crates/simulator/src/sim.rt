ghost use Rattle.std.specs.Prelude.{◌≡◌, ◌≤◌, ◌++◌, ◌∷◌, [], length, IfOk, IfSome, OnErr, OnOk};
ghost use Rattle.std.specs.Option.{option_map};
ghost use Rattle.world.specs.Opening.{blank, CanBegin};
ghost use Rattle.simulator.specs.Events.{event_of};
ghost use Rattle.simulator.specs.Kept.{IsHost};
ghost use Rattle.simulator.specs.Answers.{lines_in, IsPictured};
ghost use Rattle.simulator.specs.OneLog.{GoesByOneLog, BeginsTheLog};
ghost use Rattle.simulator.specs.Past.{world_of, answers_of};

use crate::answer::Answer;
use crate::room::Room;
use crate::simulated_cluster::SimulatedCluster;
use disk::NoMemory;
use host::HostCore;
use lock_command::Command;
use lock_script::Event;
use paxos_block::Config;
use std::alloc::Global;
use std::marker::Model;

/// A simulated cluster, to which one event after the other happens. It keeps them, and the log that it began with.
#[derive(Drop)]
pub struct Sim {
    cluster: SimulatedCluster,
    log: Vec<Command>,
    events: Vec<Event>,
    room: Room,
}

impl Model for Sim {
    ghost use Rattle.world.specs.Opening.{run_of};
    ghost use Rattle.simulator.specs.Events.{events_of};
    ghost use Rattle.simulator.specs.Kept.{LeadsTo};
    ghost use Rattle.simulator.specs.Past.{Past};

    ghost Value = { Past };

    ghost view = { λ s. record { opening = record { shape = s.cluster.shape; moved = s.log.items }; events = events_of s.events.items } };

    ghost invariant = { λ s. LeadsTo (run_of (record { shape = s.cluster.shape; moved = s.log.items }) (events_of s.events.items)) s.cluster };
}

impl Sim {
    /// Disks of zeros and stopped hosts, to which nothing has happened.
    pub fn new(alloc: Global, config: Config) -> Result<Sim, NoMemory>
        ensures { IfOk result (λ sim. sim ≡ record { opening = blank config; events = [] }) }
    {
        Ok(Sim {
            cluster: SimulatedCluster::new(alloc, config)?,
            log: Vec::new(alloc),
            events: Vec::new(alloc),
            room: Room::new(),
        })
    }

    /// Disks as a complete migration of these commands left them, and stopped hosts.
    pub fn migrated(alloc: Global, config: Config, log: &[Command]) -> Result<Sim, NoMemory>
        requires { length log.now ≤ config.slots }
        ensures sim { IfOk result (λ sim. sim ≡ record { opening = record { shape = config; moved = log.now }; events = [] }) }
        ensures can { IfOk result (λ _. CanBegin (record { shape = config; moved = log.now })) }
    {
        let cluster = SimulatedCluster::migrated(alloc, config, log)?;
        let mut kept = Vec::new(alloc);
        match kept.extend_from_slice(log) {
            Ok(()) => Ok(Sim {
                cluster,
                log: kept,
                events: Vec::new(alloc),
                room: Room::new(),
            }),
            Err(_) => Err(NoMemory),
        }
    }

    /// A running host.
    pub fn host(&self, host: u8) -> Option<&HostCore>
        ensures host { IsHost self.now.opening.shape host ((world_of self.now).host host) (option_map (λ core. core.now) result) }
        ensures begins { IfSome result (λ core. BeginsTheLog self.now core.now.prefix) }
    {
        self.cluster.host(host)
    }

    /// Lets an event happen, and tells what its host then says. Where memory is refused it did not happen.
    pub fn event(&mut self, alloc: Global, event: &Event) -> Result<Option<Answer>, NoMemory>
        ensures happened { OnOk result (self.new ≡ record self.old { events = self.old.events ++ event_of event.now ∷ [] }) }
        ensures answer { IfOk result (λ answer. answers_of self.new ≡ answers_of self.old ++ lines_in answer) }
        ensures picture { IfOk result (λ answer. IfSome answer (IsPictured (world_of self.new))) }
        ensures one_log { IfOk result (GoesByOneLog self.new) }
        ensures unchanged { OnErr result (self.new ≡ self.old) }
    {
        let place = self.events.len();
        self.room.prepare(alloc, event)?;
        self.events.reserve(1)?;
        let kept = event.copy()?;
        let said = self.cluster.event(alloc, event)?;
        self.events.push_reserved(kept);
        match said {
            Some(said) => Ok(Some(self.room.listed(&self.cluster, place, said))),
            None => Ok(None),
        }
    }
}
