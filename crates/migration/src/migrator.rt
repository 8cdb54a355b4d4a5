ghost use Rattle.std.specs.Prelude.{◌≡◌, ◌<◌, ◌≤◌, ◌+◌, ◌*◌, ◌++◌, ◌∷◌, [], List, Some, None, length};
ghost use Rattle.disk.specs.Disk.{Answer};
ghost use Rattle.torn_block.specs.Layout.{cluster_version};
ghost use Rattle.paxos_block.specs.Places.{image_length};
ghost use Rattle.attempt.specs.Heard.{Fits};
ghost use Rattle.attempt.specs.DeviceCalls.{IsWithin, call_of_need, heard_of};
ghost use Rattle.migration.specs.Heard.{at_first, heard, next};
ghost use Rattle.paxos_block.specs.Image.{Setup};
ghost use Rattle.migration.specs.Kept.{LeadsTo, device_answer, call_due, end_by, setup_by, setup_of};

use crate::end::End;
use crate::notes::Notes;
use attempt::{Heard, Need};
use paxos_block::{Config, Value};
use std::marker::Model;

/// A migration of a log onto images of zeros, as host 0 would have left it: each slot of the log has a block of host 0,
/// which says its value, marked.
///
/// It asks for one device call at a time, hears the answer, and takes no memory. It fills each disk, by rising number,
/// and makes sure of it; only then it opens the gates of the headers, by rising number. Any fault ends it.
#[derive(Drop)]
pub struct Migrator {
    notes: Notes,
}

impl Model for Migrator {
    ghost use Rattle.migration.specs.declared.notes.Notes.{Notes};
    ghost use Rattle.migration.specs.Kept.{IsSound};

    ghost Value = { Notes };

    ghost view = { λ migrator. migrator.notes };

    ghost invariant = { λ migrator. IsSound migrator.notes };
}

impl Migrator {
    /// A migration that has heard nothing. The headers will name this cluster.
    pub fn new(config: Config, cluster: u64, log: Vec<Value>) -> Migrator
        requires { length log.items ≤ config.slots }
        ensures leads { LeadsTo (setup_by config cluster log.items) [] result }
        ensures going { result.end ≡ None }
    {
        Migrator {
            notes: Notes::new(config, cluster, log),
        }
    }

    /// The device call that is due.
    pub fn call(&self) -> Need<'_>
        requires { self.now.end ≡ None }
        // The call that the definition names after these answers, with the same boot number and bytes.
        ensures next { (s : Setup) (answers : List Answer) → LeadsTo s answers self.now →
            next (heard (at_first s) answers) ≡ Some (call_of_need cluster_version result) }
        ensures due { call_of_need cluster_version result ≡ call_due self.now }
        ensures range { IsWithin cluster_version (image_length cluster_version self.now.config.slots) result.call }
        ensures disk { result.disk < self.now.config.disks }
    {
        Need {
            disk: self.notes.disk,
            call: self.notes.call(),
        }
    }

    /// Hears the answer to the call that is due.
    pub fn hear(&mut self, heard: &Heard<'_>)
        requires going { self.old.end ≡ None }
        requires fits { Fits (call_due self.old).1 (heard_of cluster_version heard.now) }
        ensures leads { (s : Setup) (answers : List Answer) → LeadsTo s answers self.old →
            LeadsTo s (answers ++ device_answer heard.now ∷ []) self.new }
        ensures bound { (s : Setup) (answers : List Answer) → LeadsTo s answers self.old →
            length (answers ++ device_answer heard.now ∷ []) ≤ s.disks * (length s.log + 6) }
        ensures same { setup_of self.new ≡ setup_of self.old }
    {
        self.notes.hear(heard);
    }

    /// How it has ended, if it has.
    pub fn end(&self) -> Option<End>
        ensures end { (s : Setup) (answers : List Answer) → LeadsTo s answers self.now →
            result ≡ end_by (heard (at_first s) answers) }
        ensures told { result ≡ self.now.end }
    {
        self.notes.end
    }
}
