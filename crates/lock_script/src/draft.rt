ghost use Rattle.std.specs.Prelude.{◌≡◌, OnOk, Some, None};
ghost use Rattle.lock_script.specs.Draft.{is_within};
ghost use Rattle.lock_script.specs.Faults.{fault_at};

use crate::event::Event;
use crate::events::{Events, MOST_EVENTS};
use crate::line::{Line, line_of};
use crate::script::ScriptFault;
use crate::show::{Show, View};
use lock_command::{Command, HostNumber, ValueBytes};
use paxos_block::Config;
use std::alloc::{AllocError, Global};

/// Why a line cannot be added.
#[derive(Clone, Copy, Debug)]
pub enum LineFault {
    Bad,
    NoMemory,
}

impl LineFault {
    /// The fault of a script whose line of this number cannot be added.
    pub fn at(self, number: usize) -> ScriptFault
        ensures { result ≡ fault_at number self }
    {
        match self {
            LineFault::Bad => ScriptFault::BadLine(number),
            LineFault::NoMemory => ScriptFault::NoMemory,
        }
    }
}

impl From<AllocError> for LineFault {
    ghost use Rattle.lock_script.specs.declared.draft.LineFault.TheVariants.{NoMemory};

    ghost from_gives = { λ _ fault. fault ≡ NoMemory };

    fn from(_: AllocError) -> Self {
        LineFault::NoMemory
    }
}

/// What the lines of a script say, up to some line.
#[derive(Drop)]
pub struct Draft {
    pub config: Option<Config>,
    pub log: Vec<Command>,
    pub events: Events,
    pub shows: Vec<Show>,
}

impl Draft {
    ghost use Rattle.std.specs.Prelude.{[]};
    ghost use Rattle.lock_script.specs.Draft.{so_far, added, read_line};

    pub fn new(alloc: Global) -> Self
        ensures { so_far result ≡ record { shape = None; log = []; events = []; shows = [] } }
    {
        Draft {
            config: None,
            log: Vec::new(alloc),
            events: Events::new(alloc),
            shows: Vec::new(alloc),
        }
    }

    /// Adds the line with these bytes, which is not passed over.
    #[tactic(auto, unfolding(crate::specs::Draft::read_line))]
    pub fn add(&mut self, alloc: Global, line: &[u8]) -> Result<(), LineFault>
        ensures added { OnOk result (Some (so_far self.new) ≡ read_line (so_far self.old) line.now) }
        ensures bad { result ≡ Err LineFault.Bad → read_line (so_far self.old) line.now ≡ None }
    {
        let Some(line) = line_of(alloc, line)? else {
            return Err(LineFault::Bad);
        };
        self.add_line(line)
    }

    fn add_line(&mut self, line: Line) -> Result<(), LineFault>
        ensures added { OnOk result (Some (so_far self.new) ≡ added (so_far self.old) line) }
        ensures bad { result ≡ Err LineFault.Bad → added (so_far self.old) line ≡ None }
    {
        match line {
            Line::Cluster(config) => self.cluster(config),
            Line::Log(command) => self.log(command),
            Line::Once(event) => self.once(event),
            Line::Steps { host, times } => self.steps(host, times),
            Line::Show { view, host } => self.show(view, host),
        }
    }

    fn cluster(&mut self, config: Config) -> Result<(), LineFault>
        ensures added { OnOk result (Some (so_far self.new) ≡ added (so_far self.old) (Line.Cluster config)) }
        ensures bad { result ≡ Err LineFault.Bad → added (so_far self.old) (Line.Cluster config) ≡ None }
    {
        if self.config.is_some() {
            return Err(LineFault::Bad);
        }
        self.config = Some(config);
        Ok(())
    }

    fn log(&mut self, command: Command) -> Result<(), LineFault>
        ensures added { OnOk result (Some (so_far self.new) ≡ added (so_far self.old) (Line.Log command)) }
        ensures bad { result ≡ Err LineFault.Bad → added (so_far self.old) (Line.Log command) ≡ None }
    {
        let Some(config) = self.config else {
            return Err(LineFault::Bad);
        };
        // A line of any other kind adds an event or a table, and ends the log's place.
        let ended = self.events.len() > 0 || !self.shows.is_empty();
        if ended || self.log.len() >= usize::from(config.slots()) {
            return Err(LineFault::Bad);
        }
        // These two lines do nothing when they run. Without them the checker does not load the types inside `Command`, and the proof fails.
        let _action = &command.action;
        let _no_value: Option<ValueBytes> = None;
        match self.log.push(command) {
            Ok(()) => Ok(()),
            Err(_) => Err(LineFault::NoMemory),
        }
    }

    fn once(&mut self, event: Event) -> Result<(), LineFault>
        ensures added { OnOk result (Some (so_far self.new) ≡ added (so_far self.old) (Line.Once event)) }
        ensures bad { result ≡ Err LineFault.Bad → added (so_far self.old) (Line.Once event) ≡ None }
    {
        let Some(config) = self.config else {
            return Err(LineFault::Bad);
        };
        if self.events.len() >= MOST_EVENTS || !is_within(config, &event) {
            return Err(LineFault::Bad);
        }
        self.events.push(event, 1)?;
        Ok(())
    }

    fn steps(&mut self, host: HostNumber, times: u32) -> Result<(), LineFault>
        ensures added { OnOk result (Some (so_far self.new) ≡ added (so_far self.old) (Line.Steps host times)) }
        ensures bad { result ≡ Err LineFault.Bad → added (so_far self.old) (Line.Steps host times) ≡ None }
    {
        let times = times as usize;
        if self.config.is_none() {
            return Err(LineFault::Bad);
        }
        if times > MOST_EVENTS - self.events.len() {
            return Err(LineFault::Bad);
        }
        self.events.push(Event::Step(host), times)?;
        Ok(())
    }

    fn show(&mut self, view: View, host: HostNumber) -> Result<(), LineFault>
        ensures added { OnOk result (Some (so_far self.new) ≡ added (so_far self.old) (Line.Show view host)) }
        ensures bad { result ≡ Err LineFault.Bad → added (so_far self.old) (Line.Show view host) ≡ None }
    {
        if self.config.is_none() {
            return Err(LineFault::Bad);
        }
        let place = self.events.len();
        match self.shows.push(Show { place, host, view }) {
            Ok(()) => Ok(()),
            Err(_) => Err(LineFault::NoMemory),
        }
    }
}

/// Whether the event's disk or slot, where it names one, is one of the cluster's.
fn is_within(config: Config, event: &Event) -> bool
    ensures { result ≡ is_within config event.now }
{
    match event {
        Event::DiskCrash { disk, .. } | Event::DiskGone(disk) => *disk < config.disks(),
        Event::Mark { slot, .. } => *slot < config.slots(),
        _ => true,
    }
}
