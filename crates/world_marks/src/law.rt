// What becomes of marks in every run, and so of every list of events.
ghost use Rattle.std.specs.Prelude.{List};
ghost use Rattle.paxos_block.specs.Shape.{Shape};
ghost use Rattle.world.specs.Entry.{Filled};
ghost use Rattle.world.specs.World.{IsRun};
ghost use Rattle.world_marks.specs.Found.{StaysMarked, CountsMarked, AttemptsFind, LooksSee, LooksFind, LooksFindMigrated};

/// A block that is marked, whatever a crash may make of it, stays so. A marking that answers has
/// left its host's block so on as many disks as it says.
pub fn marks_last()
    ensures last { (c : Shape) (log : List Filled) → IsRun c log → StaysMarked c log }
    ensures counted { (c : Shape) (log : List Filled) → IsRun c log → CountsMarked c log }
{}

/// An attempt that begins once its slot is marked on more than half of the disks ends with its
/// opening: it is told what was decided, or lacks a majority. A look that comes to the slot then does not say that no mark
/// tells it, though it syncs nothing: the marking's own syncs made its marks last. So a look that begins once all slots
/// up to k are marked so, and answers, has learned more than k commands. A migration marks so what it leaves:
/// each look that answers has learned it.
pub fn marks_are_found()
    ensures attempts { (c : Shape) (log : List Filled) → IsRun c log → AttemptsFind c log }
    ensures seen { (c : Shape) (log : List Filled) → IsRun c log → LooksSee c log }
    ensures looks { (c : Shape) (log : List Filled) → IsRun c log → LooksFind c log }
    ensures migrated { (c : Shape) (log : List Filled) → IsRun c log → LooksFindMigrated c log }
{}
