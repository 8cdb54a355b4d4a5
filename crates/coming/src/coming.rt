ghost use Rattle.std.specs.Prelude.{◌≡◌, ◌<◌, ◌++◌, ◌∷◌, [], ℕ, None, false, IfSome};
ghost use Rattle.torn_block.specs.Layout.{cluster_version};
ghost use Rattle.torn_block.specs.declared.layout.TheConstants.{HOSTS};
ghost use Rattle.paxos_block.specs.Places.{image_length};
ghost use Rattle.attempt.specs.Heard.{Fits};
ghost use Rattle.attempt.specs.DeviceCalls.{IsWithin, device_call_of, device_answer, heard_of};
ghost use Rattle.standings.specs.Epochs.{whole_length};
ghost use Rattle.standings.specs.Past.{Past, MayCall, made};
ghost use Rattle.coming.specs.Bound.{Tells, calls_left, calls_to_come, number_after};
ghost use Rattle.coming.specs.Coming.{HasEnded, IsSame, Knows, RaisesTowards, call_due, image_of};

use crate::end::End;
use crate::notes::Notes;
use attempt::{DeviceCall, Heard};
use standings::Epoch;
use std::marker::Model;

/// A host comes to an epoch of a disk: beat by beat its number in the area's row of standings rises to the epoch's, and before it turns
/// even the host clears its blocks in the area.
///
/// It asks for one device call at a time, hears the answer, and takes no memory. Each step looks at what stands on the disk, so a host that was
/// stopped at any call begins again with a new machine.
#[derive(Drop)]
pub struct Coming {
    notes: Notes,
}

impl Model for Coming {
    ghost use Rattle.coming.specs.declared.notes.Notes.{Notes};
    ghost use Rattle.coming.specs.Coming.{IsSound};

    ghost Value = { Notes };

    ghost view = { λ coming. coming.notes };

    ghost invariant = { λ coming. IsSound coming.notes };
}

impl Coming {
    /// A host that has heard nothing, over a disk of two areas of so many slots. Whatever it did there before, it knows none of it.
    pub fn new(host: u8, slots: u16, epoch: Epoch) -> Coming
        requires host { host < HOSTS }
        requires area { epoch.area < 2 }
        ensures going { result.end ≡ None }
        ensures of { (result.host ≡ host) × (result.slots ≡ slots) × (result.epoch ≡ epoch) }
        ensures knows { (past : Past) → Knows (image_length cluster_version slots) host past result }
        ensures bound { (number : ℕ) → calls_left number result ≡ calls_to_come slots epoch false number }
    {
        Coming {
            notes: Notes::new(host, slots, epoch),
        }
    }

    /// The device call that is due.
    pub fn call(&self) -> DeviceCall<'_>
        requires { self.now.end ≡ None }
        ensures due { device_call_of cluster_version result ≡ call_due self.now }
        // It may be made beside epochs, whatever the host did on the disk that led here.
        ensures may { (n host : ℕ) (past : Past) → Knows n host past self.now →
            MayCall n host past (device_call_of cluster_version result) }
        ensures rises { (n host : ℕ) (past : Past) → Knows n host past self.now →
            RaisesTowards n host past self.now (device_call_of cluster_version result) }
        ensures range { IsWithin cluster_version (whole_length (image_of self.now)) result }
    {
        self.notes.call()
    }

    /// Hears the answer to the call that is due.
    pub fn hear(&mut self, heard: &Heard<'_>)
        requires going { self.old.end ≡ None }
        requires fits { Fits (call_due self.old) (heard_of cluster_version heard.now) }
        ensures same { IsSame self.old self.new }
        ensures knows { (n host : ℕ) (past : Past) → Knows n host past self.old →
            Knows n host (past ++ made (call_due self.old) (device_answer heard.now) ∷ []) self.new }
        // Fewer calls are left, if the disk tells the host its number and each beat raises it.
        ensures fewer { (number : ℕ) → Tells self.old.stage self.old (device_answer heard.now) number →
            calls_left (number_after self.old (device_answer heard.now) number) self.new < calls_left number self.old }
    {
        self.notes.hear(heard);
    }

    /// How it has ended, if it has.
    pub fn end(&self) -> Option<End>
        ensures told { result ≡ self.now.end }
        ensures so { (n host : ℕ) (past : Past) → Knows n host past self.now →
            IfSome result (HasEnded n host self.now.epoch past) }
    {
        self.notes.end
    }
}
