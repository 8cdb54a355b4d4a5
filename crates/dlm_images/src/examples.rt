// What happens in one short operation, and that nothing else does. So what is proved of every operation is not proved of nothing.
ghost use Rattle.std.specs.Prelude.{◌≡◌, ℕ, true, Some, List, [], ◌∷◌, length};
ghost use Rattle.disk.specs.Disk.{DiskState, Attach};
ghost use Rattle.lock_command.specs.declared.command.Command.{Command};
ghost use Rattle.lock_command.specs.declared.reply.Reply.{Reply};
ghost use Rattle.lock_table.specs.Apply.{granted};
ghost use Rattle.host.specs.Host.{Submitting, fresh, is_idle};
ghost use Rattle.host.specs.Kept.{LeadsTo};
ghost use Rattle.host.specs.declared.answer.HostAnswer.TheVariants.{Ack};
ghost use Rattle.dlm_images.specs.Operations.{Made, IsDue, AreDue, Gave, after_made, Standing, HasOperated, IsAcknowledged};
ghost use Rattle.dlm_images.specs.Examples.{one_disk, blank, takes_db, begun, AlwaysSucceeds, IsBootOrFault};

/// Over one disk of zeros of which every call succeeds, the first submission of a host that knows nothing makes seventeen calls,
/// and is acknowledged at slot 0; nothing else may come of it.
pub fn first_operation_is_acknowledged()
    ensures made { (made : List Made) × (left : DiskState) × AreDue one_disk 0 begun made × Gave AlwaysSucceeds (blank ∷ []) made (left ∷ []) ×
        (is_idle (after_made one_disk 0 begun made) ≡ true) }
    ensures first { (x : Made) → IsDue one_disk 0 begun x → (x.disk ≡ 0) × (x.call ≡ Attach) × IsBootOrFault x.answer }
    ensures only_then { (old new : Standing DiskState) → LeadsTo one_disk 0 fresh old.core → old.disks ≡ blank ∷ [] →
        (done : HasOperated AlwaysSucceeds (Submitting takes_db) 1 old new) →
        (length done.made ≡ 17) × (new.core.said ≡ Some (Ack 0 granted)) × (new.core.prefix ≡ takes_db ∷ []) }
    ensures acknowledged { IsAcknowledged takes_db 0 granted (takes_db ∷ []) }
    ensures only_acknowledged { (command : Command) (slot : ℕ) (reply : Reply) → IsAcknowledged command slot reply (takes_db ∷ []) →
        (command ≡ takes_db) × (slot ≡ 0) × (reply ≡ granted) }
{}
