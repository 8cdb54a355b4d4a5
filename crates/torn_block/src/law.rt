ghost use Rattle.std.specs.Prelude.{◌≡◌, ◌⊎◌, ◌+◌, ◌≤◌, ℕ, List, None, length};
ghost use Rattle.disk.specs.Disk.{DiskState, Call, Answer, Read, Sync, Told, Done, Step, FailureLeaves, Crashes};
ghost use Rattle.disk.specs.Crash.{MayLeave, IsWhole};
ghost use Rattle.disk.specs.Simulated.{fresh_disk};
ghost use Rattle.disk.specs.Steps.{WritesOn};
ghost use Rattle.disk.specs.declared.file.TheConstants.{READ_LENGTH};
ghost use Rattle.torn_block.specs.declared.block.Block128.{Block128};
ghost use Rattle.torn_block.specs.declared.layout.TheConstants.{HEADER_LENGTH};
ghost use Rattle.torn_block.specs.declared.write_steps.WriteCall.{WriteCall};
ghost use Rattle.torn_block.specs.declared.write_steps.WriteCall.TheVariants.{CloseGate};
ghost use Rattle.torn_block.specs.Layout.{Version, block_length, row_length};
ghost use Rattle.torn_block.specs.Block.{value_of, number_in};
ghost use Rattle.torn_block.specs.Place.{block_in};
ghost use Rattle.torn_block.specs.Plan.{IsReading, told_number, device_call, need_at, plan_by};
ghost use Rattle.torn_block.specs.Register.{Value, Register, Reads, at_rest, Begins, Confirms, Settles, StandsFor, IsAtRest, LiesOn, LeavesBlock};
ghost use Rattle.torn_block.specs.Stage.{Write128, call_of, next_call, in_writing, old_value, new_value, IsPlaced, IsDurable, IsDue, IsDone, Stands};

/// What becomes of the register that a block stands for, on any disk.
pub fn registers()
    // On a fresh disk each block is blank and at rest.
    ensures fresh { (v : Version) (place size : ℕ) → StandsFor v place (at_rest None) (fresh_disk size) × IsAtRest v place (fresh_disk size) }

    // The bytes, at this moment and after a crash at this moment, have a value that the register allows, and a read of them
    // tells its number.
    ensures reads { (v : Version) (place : ℕ) (r : Register) (disk : DiskState) (bytes : List ℕ) (read : Block128) →
        StandsFor v place r disk → MayLeave disk bytes → IsReading v (block_in v place bytes) read → Reads r (value_of v (block_in v place bytes)) × (told_number read ≡ number_in (value_of v (block_in v place bytes))) }

    // No call that leaves the block changes its register, whoever makes it and whatever it answers.
    ensures elsewhere { (v : Version) (place : ℕ) (r : Register) (disk new : DiskState) (call : Call) (answer : Answer) →
        IsWhole disk → LiesOn v place disk → WritesOn disk call → LeavesBlock v place call → Step disk call answer new →
        StandsFor v place r disk → StandsFor v place r new }

    // A crash confirms or drops what is in writing.
    ensures crash { (v : Version) (place : ℕ) (r : Register) (disk new : DiskState) → StandsFor v place r disk → Crashes disk new →
        (s : Register) × Settles r s × StandsFor v place s new × IsAtRest v place new }

    // A sync does so too, and after it nothing is in writing. Calls that leave the block alone leave it at rest.
    ensures sync { (v : Version) (place : ℕ) (r : Register) (disk new : DiskState) (boot : ℕ) → StandsFor v place r disk →
        Step disk (Sync boot) Done new → (s : Register) × Settles r s × StandsFor v place s new × IsAtRest v place new }
    ensures rests { (v : Version) (place : ℕ) (disk new : DiskState) (call : Call) (answer : Answer) →
        IsWhole disk → LiesOn v place disk → WritesOn disk call → LeavesBlock v place call → Step disk call answer new →
        IsAtRest v place disk → IsAtRest v place new }

    // After a sync a block of any history is at rest, and stands for what it reads as.
    ensures opened { (v : Version) (place : ℕ) (disk new : DiskState) (boot : ℕ) → Step disk (Sync boot) Done new →
        IsAtRest v place new × StandsFor v place (at_rest (value_of v (block_in v place new.bytes))) new }

    // What is then read is the confirmed value, and a write over it may begin.
    ensures settled { (w : Write128) (disk new : DiskState) (boot at q len : ℕ) (bytes : List ℕ) →
        IsAtRest w.version (at + q) disk → q + block_length w.version ≤ len → at + len ≤ length disk.bytes →
        Step disk (Read boot at len) (Told bytes) new → w.place ≡ at + q → w.block ≡ block_in w.version q bytes → IsDurable w new }
{}

/// A block that is written in the six calls, on any disk: at every moment, and after a crash at any moment, it reads
/// as the value that its owner read or as the new one, and once the sixth call succeeded as the new one.
pub fn six_calls()
    // The calls that a writer asks for are those of the write.
    ensures planned { (w : Write128) (read : Block128) (call : WriteCall) (boot : ℕ) → IsReading w.version w.block read →
        device_call w.place boot (need_at (plan_by w.version read w.body) call) ≡ call_of call w boot }

    // A write begins only where nothing is in writing: over a block at rest, as its owner read it.
    ensures begins { (w : Write128) (disk : DiskState) → IsPlaced w disk → IsDurable w disk →
        IsDue CloseGate w disk × StandsFor w.version w.place (at_rest (old_value w)) disk × Begins (new_value w) (at_rest (old_value w)) (in_writing w) }

    // Each success leads to the next call.
    ensures leads_on { (w : Write128) (disk new : DiskState) (call : WriteCall) (boot : ℕ) → IsPlaced w disk →
        IsDue call w disk → Step disk (call_of call w boot) Done new → Stands (next_call call) w new }

    ensures any_moment { (w : Write128) (disk : DiskState) (call : WriteCall) → IsPlaced w disk →
        IsDue call w disk → StandsFor w.version w.place (in_writing w) disk }

    // A call that fails, or is torn, leaves the new value in writing.
    ensures failed { (w : Write128) (disk new : DiskState) (call : WriteCall) (boot : ℕ) → IsPlaced w disk →
        IsDue call w disk → FailureLeaves (call_of call w boot) disk new → StandsFor w.version w.place (in_writing w) new }

    // The sixth success confirms it: from then on no read gives an older value.
    ensures confirmed { (w : Write128) (disk : DiskState) → IsPlaced w disk → IsDone w disk →
        StandsFor w.version w.place (at_rest (new_value w)) disk × Confirms (in_writing w) (at_rest (new_value w)) }

    // Between two of the calls, no call that leaves the block matters.
    ensures elsewhere { (w : Write128) (disk new : DiskState) (due : WriteCall) (call : Call) (answer : Answer) → IsPlaced w disk →
        WritesOn disk call → LeavesBlock w.version w.place call → Step disk call answer new → IsDue due w disk → IsDue due w new }
{}

/// A row of either layout, and a header, is no longer than what a file is read at a time. So what a host reads of a file at once
/// was there at one moment.
pub fn rows_are_read_at_once()
    ensures rows { (v : Version) → row_length v ≤ READ_LENGTH }
    ensures header { HEADER_LENGTH ≤ READ_LENGTH }
{}
