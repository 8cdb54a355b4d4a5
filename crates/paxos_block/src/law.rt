// What the layers above need to know of blocks, so that they need not look into copies.
ghost use Rattle.std.specs.Prelude.{◌≡◌, ◌≢◌, ◌+◌, ◌<◌, ◌↔◌, ℕ, List, length, Some, None};
ghost use Rattle.std.specs.List.{HoldsAt};
ghost use Rattle.disk.specs.Crash.{MayLeave};
ghost use Rattle.disk.specs.Disk.{DiskState, Call, Answer, Step, FailureLeaves};
ghost use Rattle.torn_block.specs.declared.write_steps.WriteCall.{WriteCall};
ghost use Rattle.torn_block.specs.Layout.{Version, hosts_in, block_length, row_length};
ghost use Rattle.torn_block.specs.Block.{value_of};
ghost use Rattle.torn_block.specs.Damage.{IsSoundBlock, IsDamagedBlock, block_of};
ghost use Rattle.torn_block.specs.Numbers.{AreBytes};
ghost use Rattle.torn_block.specs.Place.{block_in};
ghost use Rattle.torn_block.specs.Register.{Register};
ghost use Rattle.torn_block.specs.Stage.{Write128, call_of, IsDone, IsDue, IsPlaced};
ghost use Rattle.paxos_block.specs.declared.row.Row.{Row};
ghost use Rattle.paxos_block.specs.Ballot.{IsBallotOf, majority};
ghost use Rattle.paxos_block.specs.Places.{place_of, Spot, BeatOf, VoteOf, IsSpot, IsImage, IsWithin, IsSoundAt, IsWriteOf, Holds, CellReads, SeenReads, row_of, area_of};
ghost use Rattle.paxos_block.specs.Row.{IsRow, IsSound, IsSaid, IsDamagedRow, says_of, DecodedBlock, seen_in, seen_at, row_seen, decoded_row};
ghost use Rattle.paxos_block.specs.Saying.{Said, MaySay, body_saying};

/// A ballot has one owner, and two majorities have a disk in common.
pub fn ballots_and_majorities()
    ensures one_owner { (v : Version) (host other ballot : ℕ) → IsBallotOf v host ballot →
        IsBallotOf v other ballot → host ≡ other }
    ensures meet { (disks : ℕ) → disks < majority disks + majority disks }
{}

/// A sound block says what it is spelled to say, and what was written says what it was to.
pub fn blocks_say()
    ensures written { (v : Version) (host sequence : ℕ) (says : Said) → MaySay v host says →
        says_of v (Some (sequence, body_saying v says)) ≡ says }
    ensures sound { (v : Version) (host : ℕ) (block : List ℕ) → length block ≡ block_length v →
        IsSoundBlock v (IsSound v host) block →
        IsSaid v host (value_of v block) (says_of v (value_of v block)) }
    ensures not_both { (v : Version) (host : ℕ) (block : List ℕ) → IsSoundBlock v (IsSound v host) block →
        ¬ IsDamagedBlock v (IsSound v host) block }
{}

/// A row says what each of its blocks says, or nothing where one is damaged.
pub fn rows_say()
    ensures damaged { (v : Version) (row : List ℕ) → length row ≡ row_length v → AreBytes row →
        (decoded_row v row ≡ None) ↔ IsDamagedRow v row }
    ensures sound { (v : Version) (row : List ℕ) → length row ≡ row_length v →
        ((host : ℕ) → host < hosts_in v → IsSoundBlock v (IsSound v host) (block_of v host row)) →
        decoded_row v row ≡ Some (row_seen v row) }
    ensures seen { (v : Version) (row : List ℕ) (seen : List DecodedBlock) (host : ℕ) → host < hosts_in v →
        decoded_row v row ≡ Some seen → seen_at seen host ≡ seen_in v (block_of v host row) }
    ensures said { (v : Version) (row : List ℕ) (seen : List DecodedBlock) (host : ℕ) → host < hosts_in v →
        decoded_row v row ≡ Some seen →
        IsSaid v host (value_of v (seen_at seen host).bytes) (seen_at seen host).says }
{}

/// A call within one block leaves what every other block of the image holds, of its row, of other
/// rows and of the heartbeat area, and what a crash may make of it, whatever it answers; and what
/// is read of a row, or of the area, is what its blocks hold.
pub fn blocks_apart()
    ensures others { (v : Version) (slots : ℕ) (mine other : Spot) (disk new : DiskState) (call : Call)
        (answer : Answer) (r : Register) → IsSpot v slots mine → IsSpot v slots other → mine ≢ other →
        IsImage v slots disk → IsWithin v mine call → Step disk call answer new →
        Holds v disk other r → Holds v new other r }
    // What a crash may make of another block after the call, it may make of it without the call.
    ensures outcomes { (v : Version) (slots : ℕ) (mine other : Spot) (disk new : DiskState) (call : Call)
        (answer : Answer) (bytes : List ℕ) → IsSpot v slots mine → IsSpot v slots other →
        mine ≢ other → IsImage v slots disk → IsWithin v mine call → Step disk call answer new →
        MayLeave new bytes → (before : List ℕ) × MayLeave disk before ×
        (block_in v (place_of v other) bytes ≡ block_in v (place_of v other) before) }
    ensures image { (v : Version) (slots : ℕ) (mine : Spot) (disk new : DiskState) (call : Call)
        (answer : Answer) → IsSpot v slots mine → IsImage v slots disk → IsWithin v mine call →
        Step disk call answer new → IsImage v slots new }
    ensures shown { (v : Version) (spelled : List ℕ → List ℕ) (disk : DiskState) (slot host : ℕ) (r : Register)
        (row : Row (List ℕ)) → host < hosts_in v → Holds v disk (VoteOf slot host) r →
        IsRow v spelled (row_of v slot disk.bytes) row →
        HoldsAt (CellReads v spelled r) row.cells host }
    ensures told { (v : Version) (disk : DiskState) (slot host : ℕ) (r : Register) (seen : List DecodedBlock) →
        host < hosts_in v → Holds v disk (VoteOf slot host) r →
        decoded_row v (row_of v slot disk.bytes) ≡ Some seen → SeenReads v r (seen_at seen host) }
    ensures row { (v : Version) (bytes : List ℕ) (slot host : ℕ) → host < hosts_in v →
        block_of v host (row_of v slot bytes) ≡ block_in v (place_of v (VoteOf slot host)) bytes }
    ensures area { (v : Version) (bytes : List ℕ) (host : ℕ) → host < hosts_in v →
        block_of v host (area_of v bytes) ≡ block_in v (place_of v (BeatOf host)) bytes }
    ensures due { (v : Version) (slots : ℕ) (mine other : Spot) (w : Write128) (due_call : WriteCall)
        (disk new : DiskState) (call : Call) (answer : Answer) → IsSpot v slots mine →
        IsSpot v slots other → mine ≢ other → w.version ≡ v → w.place ≡ place_of v other → IsImage v slots disk →
        IsPlaced w disk → IsWithin v mine call → Step disk call answer new →
        IsDue due_call w disk → IsDue due_call w new }
{}

/// A block that its owner writes is damaged at no moment of the write, nor by a call of it that
/// fails or is torn, and by no crash then.
pub fn writes_stay_sound()
    ensures due { (host : ℕ) (w : Write128) (says : Said) (disk : DiskState) (call : WriteCall) →
        IsPlaced w disk → IsWriteOf host says w → IsDue call w disk →
        IsSoundAt w.version host w.place disk }
    ensures failed { (host : ℕ) (w : Write128) (says : Said) (disk new : DiskState)
        (call : WriteCall) (boot : ℕ) → IsPlaced w disk → IsWriteOf host says w →
        IsDue call w disk → FailureLeaves (call_of call w boot) disk new →
        IsSoundAt w.version host w.place new }
    ensures done { (host : ℕ) (w : Write128) (says : Said) (disk : DiskState) →
        IsPlaced w disk → IsWriteOf host says w → IsDone w disk → IsSoundAt w.version host w.place disk }
{}
