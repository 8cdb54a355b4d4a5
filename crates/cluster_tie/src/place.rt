ghost use Rattle.std.specs.Prelude.{◌≡◌, ℕ, List, Some, slice_get};
ghost use Rattle.world.specs.Entry.{Filled};
ghost use Rattle.world.specs.Entry as world;
ghost use Rattle.cluster_tie.specs.Parts.{Placed, on_disk, of_host, entries};

/// Each entry of a part is in the whole list, at its place. Without the places a part is what the world calls the part of that
/// disk or host.
pub fn entries_stand()
    ensures hosts { (h : ℕ) (log : List Filled) (i : ℕ) (x : Placed) → slice_get (of_host h log) i ≡ Some x → slice_get log x.0 ≡ Some x.1 }
    ensures disks { (k : ℕ) (log : List Filled) (i : ℕ) (x : Placed) → slice_get (on_disk k log) i ≡ Some x → slice_get log x.0 ≡ Some x.1 }
    ensures of_host { (h : ℕ) (log : List Filled) → entries (of_host h log) ≡ world.of_host h log }
    ensures on_disk { (k : ℕ) (log : List Filled) → entries (on_disk k log) ≡ world.on_disk k log }
{}
