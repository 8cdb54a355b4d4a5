// What holds of every run, and so of every list of events.
ghost use Rattle.std.specs.Prelude.{List};
ghost use Rattle.paxos_block.specs.Shape.{Shape};
ghost use Rattle.world.specs.Entry.{Filled};
ghost use Rattle.world.specs.World.{IsRun};
ghost use Rattle.world.specs.Headline.{Headline, HeadlineOfEvents, HeadlineOfMigrated};
ghost use Rattle.world_safety.specs.Claims.{BindsGreater, BindsAll, OneProposal, ProposesInOrder};
ghost use Rattle.world_safety.specs.Claims.{LogGrows, AllBegun, EmptyShows, MissesNothing, NoneShorter};
ghost use Rattle.world_safety.specs.Claims.{AcknowledgesByMajority, RecoversByMajority};
ghost use Rattle.world_safety.specs.Claims.{MarksChosen, DecidesChosenBefore, LooksToldChosen};
ghost use Rattle.world_safety.specs.Renewals.{FullLogsAreFinal, RecoveriesGoOn, RecoveriesGoOnWithout};

/// One log, whatever happens, and nothing that was acknowledged is lost: so it is with every run,
/// however it came about, and with every list of events, at first or after a migration. The log only grows.
pub fn one_log_and_nothing_lost()
    ensures headline { Headline }
    ensures events { HeadlineOfEvents }
    ensures migrated { HeadlineOfMigrated }
    ensures grows { (c : Shape) (log : List Filled) → IsRun c log → LogGrows c log }
{}

/// What is chosen in a ballot is the proposal of it and of each greater one, voted for or not. What was migrated
/// is the proposal of every ballot. A ballot has one proposal, over all incarnations of its host, and a slot none before each earlier
/// slot has a chosen value.
pub fn ballots_agree()
    ensures greater { (c : Shape) (log : List Filled) → IsRun c log → BindsGreater c log }
    ensures migrated { (c : Shape) (log : List Filled) → IsRun c log → BindsAll c log }
    ensures one { (c : Shape) (log : List Filled) → IsRun c log → OneProposal c log }
    ensures in_order { (c : Shape) (log : List Filled) → IsRun c log → ProposesInOrder c log }
{}

/// Whoever answers that it has recovered began to. A slot that a recovery found empty had no chosen
/// value when the attempt that found it so began, on whichever try. So a recovery that answers has
/// missed nothing that was chosen before it began, for whatever host, and is no shorter than one that
/// had answered by then.
pub fn recoveries_miss_nothing()
    ensures begun { (c : Shape) (log : List Filled) → IsRun c log → AllBegun c log }
    ensures empty { (c : Shape) (log : List Filled) → IsRun c log → EmptyShows c log }
    ensures nothing { (c : Shape) (log : List Filled) → IsRun c log → MissesNothing c log }
    ensures no_shorter { (c : Shape) (log : List Filled) → IsRun c log → NoneShorter c log }
{}

/// No command is acknowledged, and no recovery answers, without a majority of the disks that
/// answered; but for a recovery that is answered where it begins, as all slots were learned.
pub fn majorities_answer()
    ensures acknowledged { (c : Shape) (log : List Filled) → IsRun c log →
        AcknowledgesByMajority c log }
    ensures recovered { (c : Shape) (log : List Filled) → IsRun c log → RecoversByMajority c log }
{}

/// Marks are true. At each place of a run, and after a crash just then, each marked block has an input
/// that was chosen before for its slot; so what an attempt takes as decided was chosen before, and so was what a look is told
/// by one marked block on one disk, which it reads without a sync.
pub fn marks_are_true()
    ensures blocks { (c : Shape) (log : List Filled) → IsRun c log → MarksChosen c log }
    ensures decided { (c : Shape) (log : List Filled) → IsRun c log → DecidesChosenBefore c log }
    ensures looked { (c : Shape) (log : List Filled) → IsRun c log → LooksToldChosen c log }
{}

/// A full log is final: whoever has learned all of it has learned the same. So its table may be carried over to another cluster. Each
/// recovery there shows what the full log left, and then what was submitted to that cluster; and a request that is repeated
/// gets the reply that it got before. Where clients were left out, recoveries show what the table would be that forgot them.
pub fn renewals_go_on()
    ensures full { (c : Shape) (log : List Filled) → IsRun c log → FullLogsAreFinal c log }
    ensures renewed { (c : Shape) (log : List Filled) → IsRun c log → RecoveriesGoOn c log }
    ensures left_out { (c : Shape) (log : List Filled) → IsRun c log → RecoveriesGoOnWithout c log }
{}
