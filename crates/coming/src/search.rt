// What a search for the newest epoch keeps of what it has heard, and how each answer changes it.
ghost use Rattle.std.specs.Prelude.{◌≡◌, ◌<◌, ◌≤◌, ◌+◌, ◌*◌, ◌++◌, ◌∷◌, [], ℕ, List, Some, None, length, slice_index, slice_index_or, ◌-◌};
ghost use Rattle.disk.specs.Disk.{Told};
ghost use Rattle.torn_block.specs.Layout.{cluster_version};
ghost use Rattle.torn_block.specs.declared.layout.TheConstants.{DISKS, HOSTS};
ghost use Rattle.heartbeat.specs.Beat.{counters_in};
ghost use Rattle.attempt.specs.Heard.{Fits};
ghost use Rattle.attempt.specs.DeviceCalls.{IsWithin, device_call_of, device_answer, heard_of};
ghost use Rattle.standings.specs.Epochs as epochs;
ghost use Rattle.standings.specs.Epochs.{whole_length};
ghost use Rattle.standings.specs.Past.{Made, Past, made};
ghost use Rattle.coming.specs.Finding.{AreNumbers, AreRead, Counts, HasFound, IsGoing, IsReadDue, IsSame, IsSound, IsSoundAfter, IsKept, Pasts, and_made, asked, calls_left, call_due, image_of, number_in};

use crate::found::{Found, Readings, Standings};
use attempt::{DeviceCall, Heard};
use disk::Boot;
use rounds::beats::PLACES;
use standings::{decode_standings, newest, standings_place};
use torn_block::{HOSTS, ROW_LENGTH};

/// What comes next on a disk.
#[derive(Clone, Copy)]
pub enum Step {
    Attaching,
    /// The row of standings of the first area.
    First { boot: Boot },
    /// That of the second one, after these numbers.
    Second { boot: Boot, first: [u64; HOSTS] },
}

#[derive(Drop)]
pub struct Search {
    pub slots: u16,
    pub disks: u8,
    /// The disk that is asked.
    pub disk: u8,
    pub step: Step,
    pub readings: Readings,
    /// On how many disks both rows were read.
    pub answered: u8,
    /// The newest epoch to which a number belongs that was read there, or 0.
    pub newest: u64,
    pub end: Option<Found>,
}

impl Search {
    /// The notes of a search that has heard nothing.
    pub fn new(slots: u16, disks: u8) -> Search
        requires some { 0 < disks }
        requires few { disks ≤ DISKS }
        ensures sound { IsSound result }
        ensures going { result.end ≡ None }
        ensures of { (result.slots ≡ slots) × (result.disks ≡ disks) }
        ensures keeps { (pasts : Pasts) → IsKept result pasts }
        ensures bound { calls_left result ≡ 3 * disks }
    {
        Search {
            slots,
            disks,
            disk: 0,
            step: Step::Attaching,
            readings: [None; PLACES],
            answered: 0,
            newest: 0,
            end: None,
        }
    }

    /// The device call that is due, on the disk that is asked.
    pub fn call(&self) -> DeviceCall<'_>
        ensures due { device_call_of cluster_version result ≡ (call_due self.now).1 }
        ensures range { IsWithin cluster_version (whole_length (image_of self.now)) result }
    {
        match self.step {
            Step::Attaching => DeviceCall::Attach,
            Step::First { boot } => DeviceCall::Read {
                boot,
                at: standings_place(self.slots, 0),
            },
            Step::Second { boot, .. } => DeviceCall::Read {
                boot,
                at: standings_place(self.slots, 1),
            },
        }
    }

    /// Hears the answer to the call that is due.
    pub fn hear(&mut self, heard: &Heard<'_>)
        requires sound { IsSound self.old }
        requires going { self.old.end ≡ None }
        requires fits { Fits (call_due self.old).1 (heard_of cluster_version heard.now) }
        ensures sound { IsSound self.new }
        ensures same { IsSame self.old self.new }
        ensures keeps { (pasts : Pasts) → IsKept self.old pasts →
            IsKept self.new (and_made pasts self.old.disk (made (call_due self.old).1 (device_answer heard.now))) }
        ensures fewer { calls_left self.new < calls_left self.old }
    {
        match heard {
            Heard::Booted(boot) => self.step = Step::First { boot: *boot },
            Heard::Told(bytes) => self.hear_row(bytes),
            // The disk is left out.
            Heard::Done | Heard::Fault(_) => self.go_on(),
        }
    }

    // A row of standings was read.
    fn hear_row(&mut self, bytes: &[u8; ROW_LENGTH])
        requires sound { IsSound self.old }
        requires going { self.old.end ≡ None }
        requires due { IsReadDue self.old.step }
        ensures sound { IsSound self.new }
        ensures same { IsSame self.old self.new }
        ensures keeps { (pasts : Pasts) → IsKept self.old pasts →
            IsKept self.new (and_made pasts self.old.disk (made (call_due self.old).1 (Told bytes.now))) }
        ensures fewer { calls_left self.new < calls_left self.old }
    {
        match decode_standings(bytes) {
            Some(numbers) => self.take_numbers(&numbers),
            None => self.go_on(),
        }
    }

    // These are the numbers in it.
    fn take_numbers(&mut self, numbers: &[u64; HOSTS])
        requires sound { IsSound self.old }
        requires going { self.old.end ≡ None }
        requires due { IsReadDue self.old.step }
        requires numbers { AreNumbers numbers.now }
        ensures sound { IsSound self.new }
        ensures same { IsSame self.old self.new }
        ensures keeps { (pasts : Pasts) (bytes : List ℕ) → IsKept self.old pasts → numbers.now ≡ counters_in bytes →
            IsKept self.new (and_made pasts self.old.disk (made (call_due self.old).1 (Told bytes))) }
        ensures fewer { calls_left self.new < calls_left self.old }
    {
        match self.step {
            Step::Attaching => {}
            Step::First { boot } => {
                self.step = Step::Second {
                    boot,
                    first: *numbers,
                }
            }
            Step::Second { first, .. } => self.keep(&[first, *numbers]),
        }
    }

    // Both rows were read on the disk.
    fn keep(&mut self, standings: &Standings)
        requires sound { IsSound self.old }
        requires going { self.old.end ≡ None }
        requires first { AreNumbers (slice_index_or standings.now 0 []) }
        requires second { AreNumbers (slice_index_or standings.now 1 []) }
        ensures sound { IsSound self.new }
        ensures same { IsSame self.old self.new }
        ensures keeps { (pasts : Pasts) (m : Made) → IsKept self.old pasts → AreRead (image_of self.old) standings.now (pasts self.old.disk ++ m ∷ []) →
            IsKept self.new (and_made pasts self.old.disk m) }
        ensures fewer { calls_left self.new < calls_left self.old }
    {
        let disk = usize::from(self.disk);
        self.readings[disk] = Some(*standings);
        self.answered += 1;
        self.newest = self.newest.max(newest_in(standings));
        self.go_on();
    }

    // The disk is done with.
    fn go_on(&mut self)
        requires going { self.old.end ≡ None }
        requires sound { IsSoundAfter self.old }
        ensures sound { IsSound self.new }
        ensures same { IsSame self.old self.new }
        ensures kept { self.new.readings ≡ self.old.readings }
        ensures asked { asked self.new ≡ self.old.disk + 1 }
        ensures begins { (past : Past) → IsGoing self.new.end self.new past }
        ensures fewer { calls_left self.new ≡ 3 * (self.old.disks - (self.old.disk + 1)) }
    {
        if self.disk + 1 < self.disks {
            self.disk += 1;
            self.step = Step::Attaching;
        } else {
            self.end = Some(self.found());
        }
    }

    // How it ends by what was read.
    fn found(&self) -> Found
        requires few { self.now.disks ≤ DISKS }
        requires counts { Counts self.now.disks self.now.readings self.now.answered self.now.newest }
        ensures { HasFound self.now.disks self.now.readings result }
    {
        if self.disks < 2 * self.answered {
            Found::Newest {
                order: self.newest,
                disks: self.answered,
            }
        } else {
            Found::TooFew
        }
    }
}

// The newest epoch to which any of a disk's numbers belongs.
fn newest_in(standings: &Standings) -> u64
    requires first { AreNumbers (slice_index_or standings.now 0 []) }
    requires second { AreNumbers (slice_index_or standings.now 1 []) }
    ensures above { (area host order : ℕ) → area < 2 → host < HOSTS → epochs.epoch_by area (number_in standings.now area host) ≡ Some order → order ≤ result }
    ensures reached { (area : ℕ) × (host : ℕ) × (area < 2) × (host < HOSTS) × (epochs.epoch_by area (number_in standings.now area host) ≡ Some result) }
{
    let first = newest(0, &standings[0]).unwrap_or(0);
    let second = newest(1, &standings[1]).unwrap_or(0);
    first.max(second)
}
