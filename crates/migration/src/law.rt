// What a migration leaves, whatever happens.
ghost use Rattle.std.specs.Prelude.{◌≡◌, ◌+◌, ◌*◌, ◌<◌, ℕ, List, length, replicate};
ghost use Rattle.migration.specs.Events.{Event, Step, run};
ghost use Rattle.migration.specs.Fits.{Fits};
ghost use Rattle.paxos_block.specs.Image.{Setup, HoldsLog, HoldsNoMore, HasHeader};
ghost use Rattle.migration.specs.Plan.{schedule};
ghost use Rattle.migration.specs.Run.{Entry, begun, all_after, AllMayHappen, IsAllOrNothing, HasEnded};

/// Whatever happens to a migration: no header's gate is open, or every disk holds its complete image except perhaps for the gate.
pub fn migrates_all_or_nothing()
    ensures at_each_place { (s : Setup) (es : List Entry) → Fits s → AllMayHappen (begun s) es →
        IsAllOrNothing s (all_after (begun s) es).disk }
    ensures events { (s : Setup) (events : List Event) → Fits s → IsAllOrNothing s (run s events).disk }
    // Where nothing fails, each call that is left is made, and then all disks are complete.
    ensures ends { (s : Setup) → Fits s → HasEnded s (run s (replicate (length (schedule s)) Step)) }
    ensures calls { (s : Setup) → length (schedule s) ≡ s.disks * (length s.log + 6) }
    // What a complete image holds: the log, no more, and a right header.
    ensures log { (s : Setup) (d : ℕ) → Fits s → HoldsLog s d }
    ensures no_more { (s : Setup) (d : ℕ) → Fits s → HoldsNoMore s d }
    ensures header { (s : Setup) (d : ℕ) → Fits s → d < s.disks → HasHeader s d }
{}
