// A short record, and lists that are no record. So what is claimed of every record is not claimed of nothing.
ghost use Rattle.std.specs.Prelude.{◌≡◌, [], ◌∷◌, ℕ, List, take, slice_get, Some};
ghost use Rattle.lock_command.specs.declared.command.Command.{Command};
ghost use Rattle.world.specs.Examples.{one_disk, takes_db, submission};
ghost use Rattle.world.specs.Plain.{plains};
ghost use Rattle.world.specs.declared.entry.Entry.{Entry as Kept};
ghost use Rattle.world.specs.declared.entry.Entry.TheVariants.{Submit};
ghost use Rattle.cluster.specs.Examples.{first_seat, first_receipt};
ghost use Rattle.cluster.specs.Receipts.{receipts_of};
ghost use Rattle.cluster.specs.Record.{IsReceipt, GoesBy, IsRecord};
ghost use Rattle.cluster.specs.declared.receipt.Receipt.{Receipt};

use world_safety::one_log_and_nothing_lost;

/// One host over one disk submits one command. Its journal and its seat are a record; the journal with no seat is none; and
/// to this seat belongs no other second entry.
pub fn first_record()
    ensures record { IsRecord one_disk (plains submission) (first_seat ∷ []) }
    ensures seats { ¬ IsRecord one_disk (plains submission) [] }
    ensures entries { (kept : List Kept) →
        IsRecord one_disk kept (first_seat ∷ []) → slice_get kept 1 ≡ Some (Submit 0 takes_db 1) }
{
    one_log_and_nothing_lost();
}

/// In that run there is one receipt and no other. The seat agrees with a log if the log begins with the acknowledged command,
/// and with no other log.
pub fn first_receipt_stands()
    ensures receipts { receipts_of one_disk first_seat ≡ first_receipt ∷ [] }
    ensures receipt { IsReceipt one_disk submission 0 first_receipt }
    ensures only_then { (host : ℕ) (receipt : Receipt) →
        IsReceipt one_disk submission host receipt → (host ≡ 0) × (receipt ≡ first_receipt) }
    ensures goes { GoesBy one_disk (takes_db ∷ []) first_seat }
    ensures only_by { (commands : List Command) →
        GoesBy one_disk commands first_seat → take 1 commands ≡ takes_db ∷ [] }
{}
