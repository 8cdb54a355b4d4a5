// What a sweep does, spelled out.
ghost use Rattle.std.specs.Prelude.{◌≡◌, ◌+◌, ◌*◌, ◌++◌, ◌∷◌, [], ℕ, List, true, false, replicate, None, Some};
ghost use Rattle.paxos_block.specs.Shape.{Shape};
ghost use Rattle.host.specs.declared.task.Task.{Task};
ghost use Rattle.host.specs.declared.task.Task.TheVariants.{Recover};
ghost use Rattle.world.specs.World.{World};
ghost use Rattle.world.specs.Happens.{Event, Start, Stop, Begin, Step, Tear, FailCall, DiskCrash, DiskGone};
ghost use Rattle.world.specs.Opening.{Opening};
ghost use Rattle.fault_sweep.specs.Sweeping.{changed, changes, one_if, recovered_behind, recovers, recovery, ways};

/// The events that a sweep puts before a step, in their order, and the two recoveries that follow each variant.
pub fn what_a_sweep_puts_in()
    // Host 0 is about to write to disk 0, which would take the write.
    ensures ways { ways 0 (Some (0, true)) ≡ Stop 0 ∷ Tear 0 (0 ∷ []) ∷ Tear 0 (255 ∷ []) ∷ Tear 0 (165 ∷ []) ∷ DiskCrash 0 (0 ∷ []) ∷ DiskCrash 0 (255 ∷ []) ∷ [] }
    // Host 5 is about to make another call of disk 2, or none.
    ensures others { ways 5 (Some (2, false)) ≡ Stop 5 ∷ DiskCrash 2 (0 ∷ []) ∷ DiskCrash 2 (255 ∷ []) ∷ [] }
    ensures nothing { ways 5 None ≡ [] }
    // Before what is no step nothing is put.
    ensures steps { (c : Shape) (w : World) (host disk : ℕ) (task : Task) (given : List ℕ) →
        (changes c w (Start host) ≡ []) × (changes c w (Stop host) ≡ []) × (changes c w (Begin host task) ≡ []) × (changes c w (Tear host given) ≡ [])
        × (changes c w (FailCall host given) ≡ []) × (changes c w (DiskCrash disk given) ≡ []) × (changes c w (DiskGone disk) ≡ []) }
    // The others stay, in their order.
    ensures before { (first second put : Event) → changed (first ∷ second ∷ []) 1 put ≡ first ∷ put ∷ second ∷ [] }
    // All hosts stop. Then host 0 recovers, and then host 15.
    ensures last { (o : Opening) (events : List Event) →
        let stopped = events ++ (Stop 0 ∷ Stop 1 ∷ Stop 2 ∷ Stop 3 ∷ Stop 4 ∷ Stop 5 ∷ Stop 6 ∷ Stop 7 ∷ Stop 8 ∷ Stop 9 ∷ Stop 10 ∷ Stop 11 ∷ Stop 12 ∷ Stop 13 ∷ Stop 14 ∷ Stop 15 ∷ []) in
        recovered_behind o events ≡ one_if (recovers o stopped 0) + one_if (recovers o (stopped ++ recovery o.shape 0) 15) }
    // Each with as many calls as it can need.
    ensures recovery { (c : Shape) (host : ℕ) →
        recovery c host ≡ Start host ∷ Begin host (Recover 255) ∷ replicate (17 * c.disks * (c.slots + 1)) (Step host) ++ Stop host ∷ [] }
{}
