// What a host that comes to an epoch of a disk keeps of what it has heard, and how each answer changes it.
ghost use Rattle.std.specs.Prelude.{◌≡◌, ◌<◌, ◌≤◌, ◌+◌, ◌*◌, ◌%◌, ◌^◌, ◌-◌, ◌++◌, ◌∷◌, [], ℕ, Bool, List, Some, None, true, false, slice_index, slice_range, replicate, length, IsTrue, ◌↔◌};
ghost use Rattle.disk.specs.Disk.{Told, Done};
ghost use Rattle.torn_block.specs.Layout.{cluster_version};
ghost use Rattle.torn_block.specs.declared.layout.TheConstants.{HOSTS, BLOCK_LENGTH, ROW_LENGTH};
ghost use Rattle.torn_block.specs.Damage.{block_of};
ghost use Rattle.torn_block.specs.Plan.{IsReading};
ghost use Rattle.attempt.specs.Heard.{Fits};
ghost use Rattle.attempt.specs.DeviceCalls.{IsWithin, device_call_of, device_answer, heard_of};
ghost use Rattle.rounds.specs.Kept as rounds;
ghost use Rattle.rounds.specs.declared.round.Stage as of_round;
ghost use Rattle.rounds.specs.declared.round.Stage.TheVariants as calls;
ghost use Rattle.standings.specs.Epochs.{base_of, whole_length};
ghost use Rattle.standings.specs.Reading.{numbers_in, HasPassed};
ghost use Rattle.standings.specs.Past.{Past, made};
ghost use Rattle.coming.specs.Coming.{IsSound, IsSame, IsKept, IsReadDue, IsDoneDue, call_at, call_due, image_of, stage_after};
ghost use Rattle.coming.specs.Bound.{Tells, calls_left, calls_to_come, number_after};

use crate::end::End;
use attempt::{DeviceCall, Heard, Need};
use heartbeat::encode_beat;
use rounds::Round;
use standings::{Epoch, area_base, decode_standings, has_passed, number_place, standings_place};
use torn_block::{BLOCK_LENGTH, Block128, ClusterLayout, HOSTS, ROW_LENGTH, read_block};

/// What is written over a block that is cleared.
static ZEROS: [u8; 256] = [0; 256];

/// What comes next.
#[derive(Clone, Copy)]
pub enum Stage {
    /// A call of the round: the row of standings is read, and the host's number there is raised by a beat.
    Beating,
    /// This row of the area is read, for the host's block in it.
    Looking { row: u32 },
    /// The block was not zeros. Zeros are written over it.
    Clearing { row: u32 },
    /// All of the host's blocks in the area are zeros. A sync makes sure of it.
    Settling,
}

#[derive(Drop)]
pub struct Notes {
    pub host: u8,
    pub slots: u16,
    pub epoch: Epoch,
    /// The host's blocks in the area are zeros, surely.
    pub is_cleared: bool,
    /// Over the one disk. Its boot number is the one under which all is called.
    pub round: Round,
    pub stage: Stage,
    pub end: Option<End>,
}

impl Notes {
    /// The notes of a host that has heard nothing.
    pub fn new(host: u8, slots: u16, epoch: Epoch) -> Notes
        requires host { host < HOSTS }
        requires area { epoch.area < 2 }
        ensures sound { IsSound result }
        ensures going { result.end ≡ None }
        ensures of { (result.host ≡ host) × (result.slots ≡ slots) × (result.epoch ≡ epoch) }
        ensures keeps { (past : Past) → IsKept result past }
        ensures bound { (number : ℕ) → calls_left number result ≡ calls_to_come slots epoch false number }
    {
        Notes {
            host,
            slots,
            epoch,
            is_cleared: false,
            round: Round::new(1),
            stage: Stage::Beating,
            end: None,
        }
    }

    /// The device call that is due.
    pub fn call(&self) -> DeviceCall<'_>
        requires { IsSound self.now }
        ensures due { device_call_of cluster_version result ≡ call_due self.now }
        ensures range { IsWithin cluster_version (whole_length (image_of self.now)) result }
    {
        let boot = self.round.boot;
        match self.stage {
            Stage::Beating => self.round_call(),
            Stage::Looking { row } => DeviceCall::Read {
                boot,
                at: self.row_place(row),
            },
            Stage::Clearing { row } => DeviceCall::Write {
                boot,
                at: self.row_place(row) + BLOCK_LENGTH as u64 * u64::from(self.host),
                bytes: &ZEROS,
            },
            Stage::Settling => DeviceCall::Sync { boot },
        }
    }

    // The call of the round, in the row of standings.
    fn round_call(&self) -> DeviceCall<'_>
        requires { IsSound self.now }
        ensures due { device_call_of cluster_version result ≡ call_at Stage.Beating self.now }
        ensures range { IsWithin cluster_version (whole_length (image_of self.now)) result }
    {
        let reads = standings_place(self.slots, self.epoch.area);
        let place = number_place(self.slots, self.epoch.area, self.host);
        let Need { call, .. } = self.round.call(reads, place);
        call
    }

    // Where a row of the area begins.
    fn row_place(&self, row: u32) -> u64
        requires { self.now.epoch.area < 2 }
        ensures { result ≡ base_of (image_of self.now) self.now.epoch.area + ROW_LENGTH * row }
    {
        area_base(self.slots, self.epoch.area) + ROW_LENGTH as u64 * u64::from(row)
    }

    /// Hears the answer to the call that is due.
    pub fn hear(&mut self, heard: &Heard<'_>)
        requires sound { IsSound self.old }
        requires going { self.old.end ≡ None }
        requires fits { Fits (call_due self.old) (heard_of cluster_version heard.now) }
        ensures sound { IsSound self.new }
        ensures same { IsSame self.old self.new }
        ensures keeps { (past : Past) → IsKept self.old past →
            IsKept self.new (past ++ made (call_due self.old) (device_answer heard.now) ∷ []) }
        ensures fewer { (number : ℕ) → Tells self.old.stage self.old (device_answer heard.now) number →
            calls_left (number_after self.old (device_answer heard.now) number) self.new < calls_left number self.old }
    {
        match heard {
            Heard::Booted(_) => self.round.hear(heard),
            Heard::Told(bytes) => self.hear_row(bytes),
            Heard::Done => self.succeed(),
            Heard::Fault(_) => self.end = Some(End::Failed),
        }
    }

    // A row was read.
    fn hear_row(&mut self, bytes: &[u8; ROW_LENGTH])
        requires sound { IsSound self.old }
        requires going { self.old.end ≡ None }
        requires due { IsReadDue self.old.stage self.old.round.stage }
        ensures sound { IsSound self.new }
        ensures same { IsSame self.old self.new }
        ensures keeps { (past : Past) → IsKept self.old past →
            IsKept self.new (past ++ made (call_due self.old) (Told bytes.now) ∷ []) }
        ensures fewer { (number : ℕ) → Tells self.old.stage self.old (Told bytes.now) number →
            calls_left number self.new < calls_left number self.old }
    {
        match self.stage {
            Stage::Looking { row } => {
                if are_zeros(block_in(self.host, bytes)) {
                    self.clear_next(row);
                } else {
                    self.stage = Stage::Clearing { row };
                }
            }
            _ => self.hear_standings(bytes),
        }
    }

    // The row of standings was read.
    fn hear_standings(&mut self, bytes: &[u8; ROW_LENGTH])
        requires sound { IsSound self.old }
        requires going { self.old.end ≡ None }
        requires stage { self.old.stage ≡ Stage.Beating }
        requires due { self.old.round.stage ≡ calls.Reading }
        ensures sound { IsSound self.new }
        ensures same { IsSame self.old self.new }
        ensures keeps { (past : Past) → IsKept self.old past →
            IsKept self.new (past ++ made (call_due self.old) (Told bytes.now) ∷ []) }
        ensures fewer { (number : ℕ) → Tells self.old.stage self.old (Told bytes.now) number →
            calls_left number self.new < calls_left number self.old }
    {
        match decode_standings(bytes) {
            Some(numbers) => self.take_numbers(bytes, &numbers),
            None => self.end = Some(End::Failed),
        }
    }

    // These are the numbers in it. The host's own says what is done next.
    fn take_numbers(&mut self, bytes: &[u8; ROW_LENGTH], numbers: &[u64; HOSTS])
        requires sound { IsSound self.old }
        requires going { self.old.end ≡ None }
        requires stage { self.old.stage ≡ Stage.Beating }
        requires due { self.old.round.stage ≡ calls.Reading }
        requires numbers { (host : ℕ) → host < HOSTS → slice_index numbers.now host ≡ numbers_in bytes.now host }
        ensures sound { IsSound self.new }
        ensures same { IsSame self.old self.new }
        ensures keeps { (past : Past) → IsKept self.old past →
            IsKept self.new (past ++ made (call_due self.old) (Told bytes.now) ∷ []) }
        ensures fewer { (number : ℕ) → Tells self.old.stage self.old (Told bytes.now) number →
            calls_left number self.new < calls_left number self.old }
    {
        let own = numbers[usize::from(self.host)];
        if has_passed(&self.epoch, numbers) {
            self.end = Some(End::Passed);
        } else if own == self.epoch.number {
            self.end = Some(End::Come);
        } else if own % 2 == 0 || self.is_cleared {
            self.beat(bytes);
        } else {
            self.stage = Stage::Looking { row: 1 };
        }
    }

    // The host's number is raised by one, unless its block has no sequence number left.
    fn beat(&mut self, bytes: &[u8; ROW_LENGTH])
        requires sound { IsSound self.old }
        requires going { self.old.end ≡ None }
        requires stage { self.old.stage ≡ Stage.Beating }
        requires due { self.old.round.stage ≡ calls.Reading }
        requires smaller { numbers_in bytes.now self.old.host < self.old.epoch.number }
        requires cleared { numbers_in bytes.now self.old.host % 2 ≡ 1 → self.old.is_cleared ≡ true }
        ensures sound { IsSound self.new }
        ensures same { IsSame self.old self.new }
        ensures keeps { (past : Past) → IsKept self.old past →
            IsKept self.new (past ++ made (call_due self.old) (Told bytes.now) ∷ []) }
        ensures fewer { (number : ℕ) → Tells self.old.stage self.old (Told bytes.now) number →
            calls_left number self.new < calls_left number self.old }
    {
        self.round
            .write(&own_block(self.host, bytes), &encode_beat());
        if self.round.end.is_some() {
            self.end = Some(End::Failed);
        }
    }

    // A sync or a write succeeded.
    fn succeed(&mut self)
        requires sound { IsSound self.old }
        requires going { self.old.end ≡ None }
        requires due { IsDoneDue self.old.stage self.old.round.stage }
        ensures sound { IsSound self.new }
        ensures same { IsSame self.old self.new }
        ensures keeps { (past : Past) → IsKept self.old past →
            IsKept self.new (past ++ made (call_due self.old) Done ∷ []) }
        ensures fewer { (number : ℕ) →
            calls_left (number_after self.old Done number) self.new < calls_left number self.old }
    {
        match self.stage {
            Stage::Beating => self.go_on(),
            Stage::Looking { .. } => {}
            Stage::Clearing { row } => self.clear_next(row),
            Stage::Settling => {
                self.is_cleared = true;
                self.begin();
            }
        }
    }

    // A call of the round succeeded. After the last one of a beat all begins again.
    fn go_on(&mut self)
        requires sound { IsSound self.old }
        requires going { self.old.end ≡ None }
        requires stage { self.old.stage ≡ Stage.Beating }
        requires due { IsDoneDue Stage.Beating self.old.round.stage }
        ensures sound { IsSound self.new }
        ensures same { IsSame self.old self.new }
        ensures keeps { (past : Past) → IsKept self.old past →
            IsKept self.new (past ++ made (call_due self.old) Done ∷ []) }
        ensures fewer { (number : ℕ) →
            calls_left (number_after self.old Done number) self.new < calls_left number self.old }
    {
        self.round.hear(&Heard::Done);
        if self.round.end.is_some() {
            self.begin();
        }
    }

    // Begins again: it attaches, and looks what its number is.
    fn begin(&mut self)
        ensures sound { rounds.IsSound self.new.round }
        ensures step { self.new ≡ record self.old { round = rounds.at_start 1 self.new.round; stage = Stage.Beating } }
    {
        self.round = Round::new(1);
        self.stage = Stage::Beating;
    }

    // The host's block in this row is zeros.
    fn clear_next(&mut self, row: u32)
        requires { row ≤ self.old.slots + 1 }
        ensures { self.new ≡ record self.old { stage = stage_after self.old.slots row } }
    {
        self.stage = if row <= u32::from(self.slots) {
            Stage::Looking { row: row + 1 }
        } else {
            Stage::Settling
        };
    }
}

// The host's block in a row, as a write needs it.
fn own_block(host: u8, row: &[u8; ROW_LENGTH]) -> Block128
    requires { host < HOSTS }
    ensures { IsReading cluster_version (block_of cluster_version host row.now) result }
{
    read_block::<ClusterLayout>(block_in(host, row))
}

// Its bytes.
fn block_in(host: u8, row: &[u8; ROW_LENGTH]) -> &[u8]
    requires { host < HOSTS }
    ensures bytes { result.now ≡ block_of cluster_version host row.now }
    ensures long { length result.now ≡ BLOCK_LENGTH }
{
    let place = BLOCK_LENGTH * usize::from(host);
    &row[place..place + BLOCK_LENGTH]
}

fn are_zeros(bytes: &[u8]) -> bool
    ensures { IsTrue result ↔ (bytes.now ≡ replicate (length bytes.now) 0) }
{
    bytes.iter().all(|&byte| byte == 0)
}
