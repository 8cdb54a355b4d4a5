// What is done to hosts over all epochs is one log without an end.
ghost use Rattle.epoch_simulator.specs.Laws.{RunsHaveOneLog};

use epoch_runs::hosts_have_one_log;

/// Whatever entries lead to what a simulated cluster keeps, all of it is one log without an end, where an epoch has 288 slots or more.
pub fn runs_have_one_log()
    ensures { RunsHaveOneLog }
{
    hosts_have_one_log();
}
