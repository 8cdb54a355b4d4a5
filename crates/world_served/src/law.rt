// What becomes of a submission whose host is left alone.
ghost use Rattle.std.specs.Prelude.{◌≡◌, ◌≤◌, ◌+◌, ◌*◌, List, Some};
ghost use Rattle.attempt.specs.Numbers.{count};
ghost use Rattle.lock_command.specs.declared.reply.Answer.TheVariants.{Queued};
ghost use Rattle.lock_table.specs.Apply.{granted, without_value};
ghost use Rattle.paxos_block.specs.Shape.{Shape};
ghost use Rattle.host.specs.Host.{said_of};
ghost use Rattle.host.specs.declared.answer.HostAnswer.TheVariants.{Ack};
ghost use Rattle.world.specs.Chosen.{at};
ghost use Rattle.world.specs.Entry.{Filled};
ghost use Rattle.world.specs.Happens.{Event, run};
ghost use Rattle.world.specs.World.{IsRun};
ghost use Rattle.world_served.specs.Attempts.{ServesAttempts};
ghost use Rattle.world_served.specs.Reached.{one_disk, first_command, first_submission, none_open};
ghost use Rattle.world_served.specs.Reached.{second_command, second_submission, first_open};
ghost use Rattle.world_served.specs.Served.{IsLeftAlone, ServesAlone, calls_between};

/// Where no other host makes a call meanwhile, and most disks answer each attempt, a submission ends
/// within seventeen calls a disk, and as many for each open slot that had a proposal: acknowledged, or
/// refused for want of slots or ballots.
pub fn alone_submissions_are_served()
    ensures runs { (c : Shape) (log : List Filled) → 1 ≤ c.disks → IsRun c log → ServesAlone c log }
    ensures events { (c : Shape) (events : List Event) → 1 ≤ c.disks → ServesAlone c (run c events) }
{}

/// Each attempt that hears its answers meanwhile, of a submission or a recovery, goes on with fewer
/// than seventeen calls a disk, or has ended Committed, Decided, Empty or BallotsSpent.
pub fn alone_attempts_are_served()
    ensures { (c : Shape) (log : List Filled) → IsRun c log → ServesAttempts c log }
{}

/// The first submission over one disk is left alone and answered, takes as many calls as it may, and
/// is acknowledged by the last of them.
pub fn seventeen_calls_are_taken()
    ensures alone { IsLeftAlone one_disk first_submission 1 19 0 1 first_command none_open }
    ensures seventeen { calls_between first_submission 1 19 0 ≡
        17 * one_disk.disks * (count one_disk.slots none_open + 1) }
    ensures acknowledged { said_of ((at one_disk first_submission 19).host 0) ≡ Some (Ack 0 granted) }
{}

/// A submission of a host that was started again, and so has not learned the slot of an earlier one, is
/// left alone with that slot open. It takes as many calls as it may, and is acknowledged by the last.
pub fn thirty_four_calls_are_taken()
    ensures alone { IsLeftAlone one_disk second_submission 21 56 0 1 second_command first_open }
    ensures thirty_four { calls_between second_submission 21 56 0 ≡
        17 * one_disk.disks * (count one_disk.slots first_open + 1) }
    ensures acknowledged { said_of ((at one_disk second_submission 56).host 0) ≡ Some (Ack 1 (without_value Queued)) }
{}
