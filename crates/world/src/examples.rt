// What happens in two short runs, and that nothing else does. So what is claimed of every run is not claimed of nothing.
ghost use Rattle.std.specs.Prelude.{◌≡◌, ◌≤◌, ◌∷◌, [], ℕ, List, filter, Some, None};
ghost use Rattle.lock_command.specs.declared.command.Command.{Command};
ghost use Rattle.lock_command.specs.Command.{spelling};
ghost use Rattle.lock_command.specs.declared.reply.Reply.{Reply};
ghost use Rattle.lock_table.specs.Apply.{granted};
ghost use Rattle.lock_table.specs.Picture.{Shown};
ghost use Rattle.lock_command.specs.Locks.{is_lock};
ghost use Rattle.host.specs.declared.answer.HostAnswer.TheVariants.{Ack, Recovered, Looked};
ghost use Rattle.world.specs.Chosen.{IsSubmittedBefore, IsAcknowledgedAt, IsRecovery};
ghost use Rattle.world.specs.Headline.{IsAcknowledgedBefore};
ghost use Rattle.world.specs.Opening.{blank};
ghost use Rattle.world.specs.Told.{IsSubmittedBefore as IsSubmittedByEvents, IsAcknowledged, goes_by, MissesNothing};
ghost use Rattle.world.specs.Examples.{one_disk, takes_db, submitting, submission, recovery, told_at};

/// Over one disk the first submission is submitted at entry 1, and acknowledged at entry 18; no other
/// command is submitted, and nothing else is acknowledged.
pub fn first_submission_is_acknowledged()
    ensures submitted { IsSubmittedBefore submission 2 (spelling takes_db) }
    ensures not_before { (value : List ℕ) → ¬ IsSubmittedBefore submission 1 value }
    ensures only_that { (i : ℕ) (value : List ℕ) →
        IsSubmittedBefore submission i value → value ≡ spelling takes_db }
    ensures acknowledged { IsAcknowledgedAt one_disk submission 18 0 0 takes_db granted }
    ensures before { IsAcknowledgedBefore one_disk submission 19 0 takes_db }
    ensures only_then { (i host slot : ℕ) (command : Command) (reply : Reply) →
        IsAcknowledgedAt one_disk submission i host slot command reply →
        (i ≡ 18) × (host ≡ 0) × (slot ≡ 0) × (command ≡ takes_db) × (reply ≡ granted) }
{}

/// Over one disk a recovery of an empty log begins at entry 1 and answers at entry 11. There is no other
/// recovery.
pub fn empty_log_is_recovered()
    ensures recovered { IsRecovery one_disk recovery 1 11 0 0 }
    ensures only_then { (i j host n : ℕ) → IsRecovery one_disk recovery i j host n →
        (j ≡ 11) × (host ≡ 0) × (n ≡ 0) }
{}

/// In the events of the first submission, event 1 submits the command, and no other event does. The log has
/// that command alone. The acknowledgement at event 18 agrees with this log only at slot 0 and with that reply,
/// and none agrees at an event at which the host was not submitting. A recovery agrees with this log only with at
/// most one command, and with the picture of the table after as many. So does a look.
pub fn first_answer_goes_by_its_log()
    ensures submitted { IsSubmittedByEvents submitting 2 (spelling takes_db) }
    ensures not_before { (value : List ℕ) → ¬ IsSubmittedByEvents submitting 1 value }
    ensures only_that { (i : ℕ) (value : List ℕ) →
        IsSubmittedByEvents submitting i value → value ≡ spelling takes_db }
    ensures acknowledged { goes_by (blank one_disk) submitting (takes_db ∷ [])
        (told_at 18 (Ack 0 granted)) None (Ack 0 granted) }
    ensures only_then { (place slot : ℕ) (reply : Reply) →
        IsAcknowledged (blank one_disk) submitting (takes_db ∷ []) (told_at place (Ack slot reply)) slot reply →
        (slot ≡ 0) × (reply ≡ granted) }
    ensures not_idle { (slot : ℕ) (reply : Reply) →
        ¬ IsAcknowledged (blank one_disk) submitting (takes_db ∷ []) (told_at 19 (Ack slot reply)) slot reply }
    ensures most { (place n : ℕ) (picture : Shown) → goes_by (blank one_disk) submitting (takes_db ∷ [])
        (told_at place (Recovered n)) (Some picture) (Recovered n) → n ≤ 1 }
    ensures looked { (place n : ℕ) (picture : Shown) → goes_by (blank one_disk) submitting (takes_db ∷ [])
        (told_at place (Looked n)) (Some picture) (Looked n) → n ≤ 1 }
    ensures pictured { (place n : ℕ) →
        ¬ goes_by (blank one_disk) submitting (takes_db ∷ []) (told_at place (Recovered n)) None (Recovered n) }
    ensures of_none { (place : ℕ) (picture : Shown) → goes_by (blank one_disk) submitting (takes_db ∷ [])
        (told_at place (Recovered 0)) (Some picture) (Recovered 0) → filter (is_lock 1) picture.locks ≡ [] }
{}

/// A recovery that finds no command after that acknowledgement has missed it, as its host was idle in between. A
/// recovery of one command has not. Nor has one that answers with the same event, or whose host was busy since
/// before the acknowledgement.
pub fn recovery_that_misses_is_told()
    ensures misses { ¬ MissesNothing (blank one_disk) submitting
        (told_at 18 (Ack 0 granted) ∷ told_at 19 (Recovered 0) ∷ []) }
    ensures holds { MissesNothing (blank one_disk) submitting
        (told_at 18 (Ack 0 granted) ∷ told_at 19 (Recovered 1) ∷ []) }
    ensures at_once { MissesNothing (blank one_disk) submitting
        (told_at 18 (Ack 0 granted) ∷ told_at 18 (Recovered 0) ∷ []) }
    ensures busy { MissesNothing (blank one_disk) submitting
        (told_at 3 (Ack 0 granted) ∷ told_at 4 (Recovered 0) ∷ []) }
{}
