ghost use Rattle.std.specs.Prelude.{◌≡◌, ◌<◌};
ghost use Rattle.torn_block.specs.declared.layout.TheConstants.{DISKS, HOSTS};

use crate::outcome::Outcome;
use crate::sight::Sight;
use crate::standing::{Hidden, judge};
use crate::standpoint::Standpoint;
use crate::step::{Reading, Step};
use attempt::{DeviceCall, Heard, Need};
use disk::{Boot, DiskFault};
use standings::{Epoch, area_base, mask, shown, standings_place};
use torn_block::{DISKS, HOSTS, ROW_LENGTH};

/// The most disks of a cluster.
const PLACES: usize = DISKS as usize;

/// What a host of an epoch sees of the disks.
///
/// Its core works on the image of the epoch, and calls as if this were all of a disk. For each call of the core the window makes device calls, one
/// at a time, until it knows what the core is to hear. A read of a row takes a reading of the standings before the row, made once under each boot
/// number, and one after it. It takes no memory.
#[derive(Drop)]
pub struct Window {
    standpoint: Standpoint,
    sights: [Option<Sight>; PLACES],
    /// The read that has begun, if one has.
    reading: Option<Reading>,
    /// The row that was read last.
    row: [u8; ROW_LENGTH],
    has_passed: bool,
}

impl Window {
    ghost use Rattle.std.specs.Prelude.{◌+◌, ◌≤◌, ◌↔◌, ℕ, true, false, IsTrue, IfSome, Some, None, List, [], ◌∷◌, ◌++◌, ◌≢◌};
    ghost use Rattle.standings.specs.declared.epoch.Epoch.{Epoch};
    ghost use Rattle.standings.specs.Reading.{numbers_in};
    ghost use Rattle.standings.specs.Past.{Past, reading};
    ghost use Rattle.disk.specs.Disk as device;
    ghost use Rattle.torn_block.specs.Layout.{cluster_version};
    ghost use Rattle.torn_block.specs.declared.layout.TheConstants.{ROW_LENGTH};
    ghost use Rattle.attempt.specs.Answers.{heard_in};
    ghost use Rattle.attempt.specs.Heard.{Fits};
    ghost use Rattle.attempt.specs.DeviceCalls.{IsWithin, device_answer, device_call_of, heard_of};
    ghost use Rattle.standings.specs.Epochs.{whole_length};
    ghost use Rattle.window.specs.Knows.{AreSaid, KnowsOf, Pasts, ShowsLater};
    ghost use Rattle.window.specs.Calls.{Follows, IsMadeFor, IsOwn, call_in, due_for, left_for, length_of, most_for, sight_of, step_of};
    ghost use Rattle.window.specs.Steps.{read_due};
    ghost use Rattle.window.specs.Outcomes.{IsGood, answer_by, passed_by};
    ghost use Rattle.window.specs.Sights.{IsKnownUnder, IsSureUnder, IsSyncedUnder, IsUnder, Keeps};
    ghost use Rattle.window.specs.Hearing.{AnswersBy, FitsAs, FollowsOn, ForgetsOn, GoesOnWith, HasCause, HasOneFewer, Hears, MayWant, Notices, RestsAfter, ShowsAtOnce, SightsGoOn};

    /// A window that has seen nothing: of a host, on disks whose areas have so many slots. To a host that only looks it shows rows from outside of the epoch, too.
    pub fn new(host: u8, slots: u16, epoch: Epoch, only_looks: bool) -> Window
        requires host { host < HOSTS }
        requires area { epoch.area < 2 }
        ensures host { result.standpoint.host ≡ host }
        ensures slots { result.standpoint.slots ≡ slots }
        ensures epoch { result.standpoint.epoch ≡ epoch }
        ensures looks { result.standpoint.only_looks ≡ only_looks }
        ensures nothing { (disk : ℕ) → sight_of result disk ≡ None }
        ensures passed { result.has_passed ≡ false }
        ensures rests { result.reading ≡ None }
        ensures follows { (pasts : Pasts) → Follows result pasts }
    {
        Window {
            standpoint: Standpoint {
                host,
                slots,
                epoch,
                only_looks,
            },
            sights: [None; PLACES],
            reading: None,
            row: [0; ROW_LENGTH],
            has_passed: false,
        }
    }

    /// Whether some disk showed that a host has left the epoch. Then there is a later one.
    pub fn has_passed(&self) -> bool
        ensures passed { result ≡ self.now.has_passed }
        ensures later { (pasts : Pasts) → Follows self.now pasts → result ≡ true → (disk : ℕ) ×
            ShowsLater (length_of self.now) self.now.standpoint.epoch (pasts disk) }
    {
        self.has_passed
    }

    /// Whether the core may write on a disk under this boot number.
    pub fn is_sure(&self, disk: u8, boot: Boot) -> bool
        requires { disk < DISKS }
        ensures { IsTrue result ↔ IsSureUnder boot.number (sight_of self.now disk) }
    {
        match &self.sights[usize::from(disk)] {
            Some(sight) => sight.boot.number == boot.number && sight.is_sure,
            None => false,
        }
    }

    /// The device call that is due for this call of the core, on the same disk.
    pub fn call<'a>(&self, wanted: &Need<'a>) -> Need<'a>
        requires disk { wanted.now.disk < DISKS }
        requires own { IsOwn (length_of self.now) self.now.standpoint.host (call_in wanted.now) }
        ensures disk { result.disk ≡ wanted.now.disk }
        ensures due { device_call_of cluster_version result.call ≡
            due_for self.now wanted.now.disk (call_in wanted.now) }
        ensures moves { IsMadeFor (length_of self.now) self.now.standpoint.epoch.area
            (call_in wanted.now)
            (device_call_of cluster_version result.call) }
        ensures range { IsWithin cluster_version (whole_length (length_of self.now)) result.call }
        ensures may { MayWant self.now wanted.now.disk (call_in wanted.now) }
        ensures few { left_for self.now wanted.now.disk (call_in wanted.now) ≤
            most_for (call_in wanted.now) }
    {
        let base = area_base(self.standpoint.slots, self.standpoint.epoch.area);
        let call = match &wanted.call {
            DeviceCall::Attach => DeviceCall::Attach,
            DeviceCall::Sync { boot } => DeviceCall::Sync { boot: *boot },
            DeviceCall::Read { boot, at } => self.read_call(wanted.disk, *boot, *at),
            DeviceCall::Write { boot, at, bytes } => DeviceCall::Write {
                boot: *boot,
                at: base + *at,
                bytes: *bytes,
            },
        };
        Need {
            disk: wanted.disk,
            call,
        }
    }

    // The call that is due in a read.
    fn read_call(&self, disk: u8, boot: Boot, at: u64) -> DeviceCall<'static>
        requires disk { disk < DISKS }
        requires range { at + ROW_LENGTH ≤ length_of self.now }
        ensures due { device_call_of cluster_version result ≡
            read_due (length_of self.now) self.now.standpoint.epoch.area boot.number at ROW_LENGTH (step_of self.now disk boot.number at) }
        ensures range { IsWithin cluster_version (whole_length (length_of self.now)) result }
    {
        let at = match self.step(disk, boot, at) {
            Step::First | Step::Second { .. } => standings_place(
                self.standpoint.slots,
                self.standpoint.epoch.area,
            ),
            Step::Row { .. } => area_base(self.standpoint.slots, self.standpoint.epoch.area) + at,
        };
        DeviceCall::Read { boot, at }
    }

    // What is due in a read: it has begun, or begins now.
    fn step(&self, disk: u8, boot: Boot, at: u64) -> Step
        requires { disk < DISKS }
        ensures { result ≡ step_of self.now disk boot.number at }
    {
        match &self.reading {
            Some(reading) if reading.is_of(disk, boot, at) => reading.step,
            _ => Step::first(Sight::numbers_under(&self.sights[usize::from(disk)], boot)),
        }
    }

    /// Hears the answer to the device call that is due for this call of the core. None: another one is due. Else the core is to hear `answer`.
    pub fn hear(&mut self, wanted: &Need<'_>, heard: &Heard<'_>) -> Option<Outcome>
        requires disk { wanted.now.disk < DISKS }
        requires own { IsOwn (length_of self.old) self.old.standpoint.host (call_in wanted.now) }
        requires fits { Fits (due_for self.old wanted.now.disk (call_in wanted.now))
            (heard_of cluster_version heard.now) }
        ensures same { self.new.standpoint ≡ self.old.standpoint }
        ensures follows { FollowsOn self.old self.new wanted.now.disk (call_in wanted.now)
            (device_answer heard.now) }
        ensures answered { AnswersBy self.old self.new wanted.now.disk (call_in wanted.now)
            (device_answer heard.now) result }
        ensures fits { FitsAs self.new (call_in wanted.now) (device_answer heard.now) result }
        ensures fewer { HasOneFewer self.old self.new wanted.now.disk (call_in wanted.now) result }
        ensures cause { HasCause self.old wanted.now.disk (call_in wanted.now)
            (device_answer heard.now) result }
        ensures sights { SightsGoOn self.old self.new wanted.now.disk (call_in wanted.now)
            (device_answer heard.now) result }
        ensures notices { Notices self.old self.new wanted.now.disk (call_in wanted.now)
            (device_answer heard.now) }
        ensures rests { RestsAfter self.new result }
        ensures last { GoesOnWith self.new wanted.now.disk (call_in wanted.now) result }
        ensures at_once { ShowsAtOnce self.old self.new wanted.now.disk (call_in wanted.now)
            (device_answer heard.now) result }
    {
        match &wanted.call {
            DeviceCall::Attach => self.hear_attach(wanted.disk, heard),
            DeviceCall::Sync { boot } => self.hear_sync(wanted.disk, *boot, heard),
            DeviceCall::Write { .. } => {
                self.reading = None;
                Some(Outcome::AsHeard)
            }
            DeviceCall::Read { boot, at } => self.hear_read(wanted.disk, *boot, *at, heard),
        }
    }

    fn hear_attach(&mut self, disk: u8, heard: &Heard<'_>) -> Option<Outcome>
        requires disk { disk < DISKS }
        requires fits { Fits device.Attach (heard_of cluster_version heard.now) }
        ensures { Hears self.old self.new disk device.Attach (device_answer heard.now) result }
    {
        self.reading = None;
        if let Heard::Booted(boot) = heard {
            let disk = usize::from(disk);
            let sight = Sight::attached(&self.sights[disk], *boot);
            self.sights[disk] = Some(sight);
        }
        Some(Outcome::AsHeard)
    }

    fn hear_sync(&mut self, disk: u8, boot: Boot, heard: &Heard<'_>) -> Option<Outcome>
        requires disk { disk < DISKS }
        requires fits { Fits (device.Sync boot.number) (heard_of cluster_version heard.now) }
        ensures { Hears self.old self.new disk (device.Sync boot.number) (device_answer heard.now)
            result }
    {
        self.reading = None;
        if let Heard::Done = heard {
            let disk = usize::from(disk);
            let sight = Sight::synced(&self.sights[disk], boot);
            self.sights[disk] = sight;
        }
        Some(Outcome::AsHeard)
    }

    fn hear_read(&mut self, disk: u8, boot: Boot, at: u64, heard: &Heard<'_>) -> Option<Outcome>
        requires disk { disk < DISKS }
        requires fits { Fits (device.Read boot.number at ROW_LENGTH)
            (heard_of cluster_version heard.now) }
        ensures { Hears self.old self.new disk (device.Read boot.number at ROW_LENGTH)
            (device_answer heard.now) result }
    {
        let Heard::Told(bytes) = heard else {
            self.reading = None;
            return Some(Outcome::AsHeard);
        };
        match self.step(disk, boot, at) {
            Step::First => self.take_first(disk, boot, at, bytes),
            Step::Row { first, is_last } => {
                self.row = **bytes;
                self.reading = Some(Reading {
                    disk,
                    boot,
                    at,
                    step: Step::Second { first, is_last },
                });
                None
            }
            Step::Second { first, is_last } => self.take_second(
                disk, boot, at, bytes, &first, is_last,
            ),
        }
    }

    // The standings were read, before the row.
    fn take_first(
        &mut self,
        disk: u8,
        boot: Boot,
        at: u64,
        standings: &[u8; ROW_LENGTH],
    ) -> Option<Outcome>
        requires disk { disk < DISKS }
        requires due { step_of self.old disk boot.number at ≡ Step.First }
        ensures { Hears self.old self.new disk (device.Read boot.number at ROW_LENGTH)
            (device.Told standings.now) result }
    {
        match judge(&self.standpoint, standings) {
            Ok(first) => {
                self.see(disk, boot, &first);
                self.reading = Some(Reading {
                    disk,
                    boot,
                    at,
                    step: Step::Row {
                        first,
                        is_last: false,
                    },
                });
                None
            }
            Err(hidden) => self.hide(hidden),
        }
    }

    // The standings were read behind the row.
    fn take_second(
        &mut self,
        disk: u8,
        boot: Boot,
        at: u64,
        standings: &[u8; ROW_LENGTH],
        first: &[u64; HOSTS],
        is_last: bool,
    ) -> Option<Outcome>
        requires disk { disk < DISKS }
        requires due { step_of self.old disk boot.number at ≡ Step.Second first.now is_last }
        ensures { Hears self.old self.new disk (device.Read boot.number at ROW_LENGTH)
            (device.Told standings.now) result }
    {
        let second = match judge(&self.standpoint, standings) {
            Ok(second) => second,
            Err(hidden) => return self.hide(hidden),
        };
        self.see(disk, boot, &second);
        self.reading = None;
        match shown(&self.standpoint.epoch, first, &second) {
            Some(shown) => {
                mask(&mut self.row, &shown);
                Some(Outcome::Row)
            }
            None if is_last => Some(Outcome::Failed),
            None => {
                self.reading = Some(Reading {
                    disk,
                    boot,
                    at,
                    step: Step::Row {
                        first: second,
                        is_last: true,
                    },
                });
                None
            }
        }
    }

    // No row is shown.
    fn hide(&mut self, hidden: Hidden) -> Option<Outcome>
        ensures fails { result ≡ Some Outcome.Failed }
        ensures step { self.new ≡ record self.old
            { reading = None; has_passed = passed_by hidden self.old.has_passed } }
    {
        self.reading = None;
        match hidden {
            Hidden::Passed => self.has_passed = true,
            Hidden::Damaged | Hidden::Outside => {}
        }
        Some(Outcome::Failed)
    }

    // These numbers were read on a disk. A host that does not only look is inside by them.
    fn see(&mut self, disk: u8, boot: Boot, numbers: &[u64; HOSTS])
        requires { disk < DISKS }
        ensures rest { self.new ≡ record self.old { sights = self.new.sights } }
        ensures others { (other : ℕ) → other ≢ disk → sight_of self.new other ≡ sight_of self.old
            other }
        ensures sure { self.old.standpoint.only_looks ≡ false → IsSyncedUnder boot.number (sight_of self.old disk) → IsSureUnder
            boot.number (sight_of self.new disk) }
        ensures known { IsUnder boot.number (sight_of self.old disk) → IsKnownUnder boot.number
            (sight_of self.new disk) }
        ensures keeps { Keeps (sight_of self.old disk) (sight_of self.new disk) }
        ensures knows { (n host : ℕ) (e : Epoch) (past : Past) (row : List ℕ) → AreSaid row
            numbers.now →
            (self.old.standpoint.only_looks ≡ false → numbers_in row host ≡ e.number) → KnowsOf n e host past (sight_of self.old disk) →
            KnowsOf n e host (past ++ reading n e.area boot.number row ∷ []) (sight_of self.new disk) }
    {
        let disk = usize::from(disk);
        let only_looks = self.standpoint.only_looks;
        let sight = Sight::read(&self.sights[disk], boot, numbers, only_looks);
        self.sights[disk] = sight;
    }

    /// What the core is to hear, where the device answered so.
    pub fn answer<'a>(&'a self, outcome: Outcome, heard: &Heard<'a>) -> Heard<'a>
        ensures device { device_answer result ≡ answer_by self.now.row outcome
            (device_answer heard.now) }
        ensures heard { heard_of cluster_version result ≡ heard_in cluster_version
            (answer_by self.now.row outcome (device_answer heard.now)) }
    {
        match outcome {
            Outcome::AsHeard => *heard,
            Outcome::Row => Heard::Told(&self.row),
            Outcome::Failed => Heard::Fault(DiskFault::Failed),
        }
    }

    /// Forgets what it saw of a disk, on which calls were made beside it.
    pub fn forget(&mut self, disk: u8)
        requires { disk < DISKS }
        ensures same { self.new.standpoint ≡ self.old.standpoint }
        ensures follows { ForgetsOn self.old self.new disk }
        ensures forgotten { sight_of self.new disk ≡ None }
        ensures others { (other : ℕ) → other ≢ disk → sight_of self.new other ≡ sight_of self.old
            other }
        ensures passed { self.new.has_passed ≡ self.old.has_passed }
        ensures rests { self.new.reading ≡ None }
    {
        self.reading = None;
        self.sights[usize::from(disk)] = None;
    }
}
