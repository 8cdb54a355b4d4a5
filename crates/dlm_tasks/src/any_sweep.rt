ghost use Rattle.std.specs.Prelude.{IfErr, OnOk};
ghost use Rattle.dlm_tasks.specs.AnyRun.{HasRoom};
ghost use Rattle.dlm_tasks.specs.AnySweep.{WritesAnySweep, WritesEpochSweep};
ghost use Rattle.dlm_tasks.specs.Faults.{IfRefused};
ghost use Rattle.dlm_tasks.specs.Refusing.{IsNotRight, IsNotSwept};

use crate::command_failure::CommandFailure;
use crate::fault::Fault;
use crate::sweeping::{print_counts, print_sweep};
use epoch_script::{AnyScript, EpochScript};
use epoch_sweep::sweep_epochs;
use std::alloc::Global;
use std::io::Write;

/// Runs the variants of a script over a log of either kind, and prints how many there were, how many of their last recoveries answered, and how many runs were
/// wrong. The first wrong one is the refusal.
pub fn sweep_any_script<O: Write>(
    alloc: Global,
    script: &AnyScript,
    out: &mut O,
) -> Result<(), CommandFailure>
    requires { HasRoom script.now }
    ensures written { OnOk result (WritesAnySweep script.now (O.contents out.old) (O.contents out.new)) }
    ensures refused { IfErr result (λ failure. IfRefused failure (λ fault. IsNotSwept script.now fault (O.contents out.old) (O.contents out.new))) }
{
    match script {
        AnyScript::Ending(script) => print_sweep(alloc, script, out),
        AnyScript::Endless(script) => print_epoch_sweep(alloc, script, out),
    }
}

fn print_epoch_sweep<O: Write>(
    alloc: Global,
    script: &EpochScript,
    out: &mut O,
) -> Result<(), CommandFailure>
    ensures written { OnOk result (WritesEpochSweep script.now (O.contents out.old) (O.contents out.new)) }
    ensures refused { IfErr result (λ failure. IfRefused failure (λ fault. IsNotRight script.now fault (O.contents out.old) (O.contents out.new))) }
{
    let swept = sweep_epochs(alloc, script).map_err(Fault::from)?;
    print_counts(swept.runs, swept.recovered, swept.wrong, out)?;
    match swept.first {
        None => Ok(()),
        Some(run) => Err(CommandFailure::Refused(Fault::WrongRun(run))),
    }
}
