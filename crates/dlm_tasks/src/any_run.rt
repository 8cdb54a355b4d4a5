ghost use Rattle.std.specs.Prelude.{IfErr, OnOk};
ghost use Rattle.dlm_tasks.specs.AnyRun.{HasRoom, WritesAnyScript};
ghost use Rattle.dlm_tasks.specs.Faults.{IfRefused};
ghost use Rattle.dlm_tasks.specs.Refusing.{IsNoMemory};

use crate::command_failure::CommandFailure;
use crate::run::run_script;
use epoch_player::play;
use epoch_script::AnyScript;
use std::alloc::Global;
use std::io::Write;

/// Runs a script over a log of either kind, and prints what is answered and shown.
pub fn run_any_script<O: Write>(
    alloc: Global,
    script: &AnyScript,
    out: &mut O,
) -> Result<(), CommandFailure>
    requires { HasRoom script.now }
    ensures written { OnOk result (WritesAnyScript script.now (O.contents out.old) (O.contents out.new)) }
    ensures refused { IfErr result (λ failure. IfRefused failure IsNoMemory) }
{
    match script {
        AnyScript::Ending(script) => run_script(alloc, script, out),
        AnyScript::Endless(script) => {
            play(alloc, script, out)?;
            Ok(())
        }
    }
}
