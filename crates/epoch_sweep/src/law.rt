// What a sweep does, spelled out.
ghost use Rattle.std.specs.Prelude.{◌≡◌, ◌∷◌, [], true, false, None, Some};
ghost use Rattle.lock_script.specs.declared.event.Event.TheVariants.{Stop, Tear, DiskCrash, DiskGone};
ghost use Rattle.epoch_sweep.specs.Sweeping.{stops, ways};

/// The events that a sweep puts before a step, in their order, and those that follow each variant.
pub fn what_an_epoch_sweep_puts_in()
    // Host 0 is about to write to disk 0, which would take the write.
    ensures ways { ways 0 (Some (0, true)) ≡ Stop 0 ∷ Tear 0 (0 ∷ []) ∷ Tear 0 (255 ∷ []) ∷ Tear 0 (165 ∷ []) ∷ DiskCrash 0 (0 ∷ []) ∷ DiskCrash 0 (255 ∷ []) ∷ DiskGone 0 ∷ [] }
    // Host 5 is about to make another call of disk 2, or none.
    ensures others { ways 5 (Some (2, false)) ≡ Stop 5 ∷ DiskCrash 2 (0 ∷ []) ∷ DiskCrash 2 (255 ∷ []) ∷ DiskGone 2 ∷ [] }
    ensures nothing { ways 5 None ≡ [] }
    // All hosts stop, before the first one recovers and then the last.
    ensures last { stops ≡ Stop 0 ∷ Stop 1 ∷ Stop 2 ∷ Stop 3 ∷ Stop 4 ∷ Stop 5 ∷ Stop 6 ∷ Stop 7 ∷ Stop 8 ∷ Stop 9 ∷ Stop 10 ∷ Stop 11 ∷ Stop 12 ∷ Stop 13 ∷ Stop 14 ∷ Stop 15 ∷ [] }
{}
