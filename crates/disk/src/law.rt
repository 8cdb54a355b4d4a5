ghost use Rattle.std.specs.Prelude.{◌≡◌, ◌≤◌, ℕ, List};
ghost use Rattle.disk.specs.Cut.{cut, HasFirst, IsInFirst};
ghost use Rattle.disk.specs.Disk.{DiskState, Call, Answer, Step, Crashes, lost};
ghost use Rattle.disk.specs.Simulated.{crashed, fresh_disk};
ghost use Rattle.disk.specs.Steps.{WritesOn, HasShape};

/// A fresh disk has a flag for each of its bytes, and no call changes how many there are.
pub fn calls_keep_the_shape()
    ensures fresh { (size : ℕ) → HasShape size (fresh_disk size) }
    ensures kept { (size : ℕ) (disk new : DiskState) (call : Call) (answer : Answer) →
        HasShape size disk → WritesOn disk call → Step disk call answer new → HasShape size new }
{}

/// What happens among the first positions of a disk would happen in the same way to a disk that has only these. So a disk may be
/// larger than what is used of it.
pub fn larger_disks_serve()
    ensures fresh { (n size : ℕ) → n ≤ size → cut n (fresh_disk size) ≡ fresh_disk n }
    ensures first { (n : ℕ) (disk : DiskState) → cut n disk ≡ fresh_disk n → HasFirst n disk }
    ensures steps { (n : ℕ) (disk new : DiskState) (call : Call) (answer : Answer) →
        HasFirst n disk → IsInFirst n call → Step disk call answer new → Step (cut n disk) call answer (cut n new) × HasFirst n new }
    ensures crashes { (n : ℕ) (disk : DiskState) (given : List ℕ) → HasFirst n disk →
        (cut n (crashed disk given) ≡ crashed (cut n disk) given) × Crashes (cut n disk) (crashed (cut n disk) given) × HasFirst n (crashed disk given) }
    ensures losses { (n : ℕ) (disk : DiskState) → cut n (lost disk) ≡ lost (cut n disk) }
{}
