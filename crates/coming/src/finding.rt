ghost use Rattle.std.specs.Prelude.{◌≡◌, ◌<◌, ◌≤◌, ◌*◌, ℕ, None, IfSome};
ghost use Rattle.torn_block.specs.Layout.{cluster_version};
ghost use Rattle.torn_block.specs.declared.layout.TheConstants.{DISKS};
ghost use Rattle.paxos_block.specs.Places.{image_length};
ghost use Rattle.attempt.specs.Heard.{Fits};
ghost use Rattle.attempt.specs.DeviceCalls.{IsWithin, call_of_need, device_answer, device_call_of, heard_of};
ghost use Rattle.standings.specs.Epochs.{whole_length};
ghost use Rattle.standings.specs.Past.{Past, MayCall, WritesNumber, made};
ghost use Rattle.coming.specs.Finding.{HasFound, IsSame, Knows, Pasts, and_made, calls_left, call_due, image_of};

use crate::found::{Found, Readings};
use crate::search::Search;
use attempt::{Heard, Need};
use std::marker::Model;

/// A search for the newest epoch: on each disk both rows of standings are read. A disk that fails or shows damage is left out.
///
/// It asks for one device call at a time, hears the answer, and takes no memory. It asks the disks once, by rising number, and writes nothing.
#[derive(Drop)]
pub struct Finding {
    search: Search,
}

impl Model for Finding {
    ghost use Rattle.coming.specs.declared.search.Search.{Search};
    ghost use Rattle.coming.specs.Finding.{IsSound};

    ghost Value = { Search };

    ghost view = { λ finding. finding.search };

    ghost invariant = { λ finding. IsSound finding.search };
}

impl Finding {
    /// A search that has heard nothing, over the disks below `disks`, each of two areas of so many slots.
    pub fn new(slots: u16, disks: u8) -> Finding
        requires some { 0 < disks }
        requires few { disks ≤ DISKS }
        ensures going { result.end ≡ None }
        ensures of { (result.slots ≡ slots) × (result.disks ≡ disks) }
        ensures knows { (pasts : Pasts) → Knows (image_length cluster_version slots) pasts result }
        ensures bound { calls_left result ≡ 3 * disks }
    {
        Finding {
            search: Search::new(slots, disks),
        }
    }

    /// The device call that is due, and its disk.
    pub fn call(&self) -> Need<'_>
        requires { self.now.end ≡ None }
        ensures due { call_of_need cluster_version result ≡ call_due self.now }
        // It may be made beside epochs, whatever the host did on the disk.
        ensures may { (n host : ℕ) (past : Past) → MayCall n host past (device_call_of cluster_version result.call) }
        ensures raises { (n host : ℕ) (past : Past) →
            ¬ WritesNumber n host past (device_call_of cluster_version result.call) }
        ensures range { IsWithin cluster_version (whole_length (image_of self.now)) result.call }
        ensures disk { result.disk < self.now.disks }
    {
        Need {
            disk: self.search.disk,
            call: self.search.call(),
        }
    }

    /// Hears the answer to the call that is due.
    pub fn hear(&mut self, heard: &Heard<'_>)
        requires going { self.old.end ≡ None }
        requires fits { Fits (call_due self.old).1 (heard_of cluster_version heard.now) }
        ensures same { IsSame self.old self.new }
        ensures knows { (n : ℕ) (pasts : Pasts) → Knows n pasts self.old →
            Knows n (and_made pasts self.old.disk (made (call_due self.old).1 (device_answer heard.now))) self.new }
        ensures fewer { calls_left self.new < calls_left self.old }
    {
        self.search.hear(heard);
    }

    /// How it has ended, if it has.
    pub fn end(&self) -> Option<Found>
        ensures told { result ≡ self.now.end }
        ensures so { IfSome result (HasFound self.now.disks self.now.readings) }
    {
        self.search.end
    }

    /// What was read on each disk. None for a disk that failed or showed damage.
    pub fn readings(&self) -> Readings
        ensures { result ≡ self.now.readings }
    {
        self.search.readings
    }
}
