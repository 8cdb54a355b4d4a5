// What bounds the device calls of a look, and what its ends rest on.
ghost use Rattle.std.specs.Prelude.{◌≡◌, ◌*◌, ◌<◌, ◌≤◌, ◌∷◌, [], ℕ, List, length, true, not, Some};
ghost use Rattle.disk.specs.Disk.{Call};
ghost use Rattle.torn_block.specs.Layout.{cluster_version};
ghost use Rattle.paxos_block.specs.Row.{DecodedBlock};
ghost use Rattle.paxos_block.specs.Votes.{marked_in};
ghost use Rattle.attempt.specs.Answers as answers;
ghost use Rattle.attempt.specs.Answers.{Answered, Answers, on, all_good};
ghost use Rattle.attempt.specs.Looking.{OnlyReads};
ghost use Rattle.attempt.specs.Numbers.{count};
ghost use Rattle.rounds.specs.Look.History.{IsHistory};
ghost use Rattle.rounds.specs.Look.Shown.{IsMarkRead, IsNoMarkRead};
ghost use Rattle.rounds.specs.Look.Status.{Setup, Due, Ended, Decided, Unmarked, NoMajority, status, next_call, shows_no_mark};

/// A look makes at most two calls a disk, and fewer while it goes on. It goes on by a call on the disk on which one is due.
pub fn two_calls_a_disk()
    ensures bound { (s : Setup) (heard : List Answered) → s.first < s.disks → IsHistory s heard →
        length heard ≤ 2 * s.disks }
    ensures going { (s : Setup) (heard : List Answered) (d : ℕ) → s.first < s.disks → IsHistory s heard →
        status s (on heard) ≡ Due d → length heard < 2 * s.disks }
    ensures due { (s : Setup) (heard : List Answered) (d : ℕ) → s.first < s.disks → status s (on heard) ≡ Due d →
        (d < s.disks) × ((call : Call) × (next_call s (on heard) ≡ Some (d, call))) }
    // A mark on the disk that is asked first makes it two calls in all.
    ensures one { (s : Setup) (boot : ℕ) (row : List DecodedBlock) (value : List ℕ) →
        s.first < s.disks → marked_in cluster_version row ≡ Some value →
        status s (on (record { disk = s.first; heard = answers.Booted boot } ∷ record { disk = s.first; heard = answers.Told (Some row) } ∷ []))
        ≡ Ended (Decided s.first value) }
{}

/// No call of a look writes or syncs: it attaches, or reads.
pub fn only_attaches_and_reads()
    ensures { (s : Setup) (f : Answers) (d : ℕ) (call : Call) →
        next_call s f ≡ Some (d, call) → OnlyReads call }
{}

/// What a look ends with was read: the input of a marked block; or no mark in the sound rows of more than half of the disks; or
/// an answer on half of the disks, or on more, that is a fault or a damaged row.
pub fn ends_are_shown()
    ensures decided { (s : Setup) (f : Answers) (d : ℕ) (value : List ℕ) →
        status s f ≡ Ended (Decided d value) → (d < s.disks) × IsMarkRead (f d) value }
    ensures unmarked { (s : Setup) (f : Answers) (d : ℕ) → status s f ≡ Ended Unmarked →
        shows_no_mark (f d) ≡ true → IsNoMarkRead (f d) }
    ensures none { (s : Setup) (heard : List Answered) → s.first < s.disks → IsHistory s heard → status s (on heard) ≡ Ended NoMajority →
        s.disks ≤ 2 * count s.disks (λ d. not (all_good (on heard d))) }
{}

/// Only where more than half of the disks have shown a sound row without a mark does a look say that no mark tells the slot.
pub fn asks_a_majority()
    ensures { (s : Setup) (f : Answers) → status s f ≡ Ended Unmarked →
        s.disks < 2 * count s.disks (λ d. shows_no_mark (f d)) }
{}
