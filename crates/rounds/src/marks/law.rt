// What bounds the device calls of a marking, and that one is due while it goes on.
ghost use Rattle.std.specs.Prelude.{◌≡◌, ◌*◌, ◌<◌, ◌≤◌, ℕ, List, length, Some};
ghost use Rattle.disk.specs.Disk.{Call};
ghost use Rattle.attempt.specs.Answers.{Answered, on};
ghost use Rattle.rounds.specs.Marking.History.{IsHistory};
ghost use Rattle.rounds.specs.Marking.Status.{Setup, Due, status, next_call};

/// A marking makes at most nine calls a disk, and fewer while it goes on. It goes on by a call on the disk on which one is due.
pub fn nine_calls_a_disk()
    ensures bound { (s : Setup) (heard : List Answered) → IsHistory s heard →
        length heard ≤ 9 * s.disks }
    ensures going { (s : Setup) (heard : List Answered) (d : ℕ) → IsHistory s heard →
        status s (on heard) ≡ Due d → length heard < 9 * s.disks }
    ensures due { (s : Setup) (heard : List Answered) (d : ℕ) → status s (on heard) ≡ Due d →
        (d < s.disks) × ((call : Call) × (next_call s (on heard) ≡ Some (d, call))) }
{}
