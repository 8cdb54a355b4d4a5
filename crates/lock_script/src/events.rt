ghost use Rattle.std.specs.Prelude.{◌≡◌, ◌≤◌, ◌+◌, ◌++◌, [], IfOk, OnErr, OnOk, length, replicate};
ghost use Rattle.lock_script.specs.Events.{each_event};

use crate::event::Event;
use std::alloc::{AllocError, Global};
use std::marker::Model;

/// The most events of a script.
pub const MOST_EVENTS: usize = 1_000_000;

/// An event that happens so many times in a row.
#[derive(Debug, Drop)]
pub struct Run {
    pub event: Event,
    pub times: usize,
}

/// Events in their order, at most `MOST_EVENTS`. The steps that one line asks for are kept once, with their number.
#[derive(Drop)]
pub struct Events {
    runs: Vec<Run>,
    len: usize,
}

impl Model for Events {
    ghost use Rattle.std.specs.Prelude.{◌≡◌, ◌≤◌, List, length};
    ghost use Rattle.lock_script.specs.declared.event.Event.{Event};
    ghost use Rattle.lock_script.specs.declared.events.TheConstants.{MOST_EVENTS};
    ghost use Rattle.lock_script.specs.Events.{each_event};

    ghost Value = { List Event };

    ghost view = { λ e. each_event e.runs.items };

    ghost invariant = { λ e. record {
      counted : e.len ≡ length (each_event e.runs.items);
      few : length (each_event e.runs.items) ≤ MOST_EVENTS;
    } };
}

impl Events {
    /// An empty list of events.
    pub fn new(alloc: Global) -> Events
        ensures { result ≡ [] }
    {
        Events {
            runs: Vec::new(alloc),
            len: 0,
        }
    }

    /// How many events there are.
    pub fn len(&self) -> usize
        ensures len { result ≡ length self.now }
        ensures few { result ≤ MOST_EVENTS }
    {
        self.len
    }

    /// The runs in their order: an event, and how often it happens in a row.
    pub fn runs(&self) -> &[Run]
        ensures runs { each_event result.now ≡ self.now }
        ensures few { length self.now ≤ MOST_EVENTS }
    {
        &self.runs
    }

    /// Adds an event at the end, so many times.
    pub fn push(&mut self, event: Event, times: usize) -> Result<(), AllocError>
        requires { length self.old + times ≤ MOST_EVENTS }
        ensures pushed { OnOk result (self.new ≡ self.old ++ replicate times event) }
        ensures unchanged { OnErr result (self.new ≡ self.old) }
    {
        self.runs
            .push(Run { event, times })
            .map_err(AllocError::from)?;
        self.len += times;
        Ok(())
    }

    /// All events, one by one.
    pub fn to_vec(&self, alloc: Global) -> Result<Vec<Event>, AllocError>
        ensures { IfOk result (λ events. events.items ≡ self.now) }
    {
        let mut events = Vec::with_capacity(alloc, self.len)?;
        for run in self.runs() {
            push_run(&mut events, run)?;
        }
        Ok(events)
    }
}

/// Adds the events of a run at the end.
fn push_run(events: &mut Vec<Event>, run: &Run) -> Result<(), AllocError>
    ensures { OnOk result (events.new.items ≡ events.old.items ++ replicate run.now.times run.now.event) }
{
    for _ in 0..run.times {
        events.push(run.event.copy()?).map_err(AllocError::from)?;
    }
    Ok(())
}
