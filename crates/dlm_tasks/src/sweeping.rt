ghost use Rattle.std.specs.Prelude.{◌≤◌, IfErr, OnOk, length};
ghost use Rattle.std.specs.Io.KnownBytes.{Appends};
ghost use Rattle.dlm_tasks.specs.Faults.{IfRefused};
ghost use Rattle.dlm_tasks.specs.Printed.{counts_text, sweep_text};
ghost use Rattle.dlm_tasks.specs.Refusing.{IsUntold};

use crate::command_failure::CommandFailure;
use crate::fault::Fault;
use fault_sweep::sweep;
use simulator::Script;
use std::alloc::Global;
use std::io;
use std::io::Write;

/// Runs the variants of a script, and prints how many there were, how many of their last recoveries answered, and how many
/// runs were wrong. The first wrong one is the refusal.
pub fn print_sweep<O: Write>(
    alloc: Global,
    script: &Script,
    out: &mut O,
) -> Result<(), CommandFailure>
    requires { length script.now.log.items ≤ script.now.config.slots }
    ensures written { OnOk result (Appends (O.contents out.old) (O.contents out.new) (sweep_text script.now)) }
    ensures refused { IfErr result (λ failure. IfRefused failure (λ fault. IsUntold fault (O.contents out.old) (O.contents out.new))) }
{
    let swept = sweep(alloc, script).map_err(Fault::from)?;
    print_counts(swept.runs, swept.recovered, swept.wrong, out)?;
    match swept.first {
        None => Ok(()),
        Some(run) => Err(CommandFailure::from(Fault::WrongRun(run))),
    }
}

pub fn print_counts<O: Write>(
    runs: usize,
    recovered: usize,
    wrong: usize,
    out: &mut O,
) -> io::Result<()>
    ensures { OnOk result (Appends (O.contents out.old) (O.contents out.new) (counts_text runs recovered wrong)) }
{
    writeln!(out, "{runs} runs, {recovered} recovered, {wrong} wrong")?;
    out.flush()
}
