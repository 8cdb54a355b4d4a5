ghost use Rattle.std.specs.Prelude.{IfErr, OnOk};
ghost use Rattle.std.specs.Io.KnownBytes.{Appends};
ghost use Rattle.in_place.specs.InPlaceFolders.{MayNotMake};
ghost use Rattle.dlm_tasks.specs.Faults.{IfRefused, IsOf, of_in_place};
ghost use Rattle.dlm_tasks.specs.InPlace.{WritesMaking, made_text};
ghost use Rattle.dlm_tasks.specs.Refusing.{PrintsNothing};

use crate::command_failure::CommandFailure;
use crate::fault::Fault;
use folders::TryLock;
use in_place::{MadeEndless, make_folder_endless};
use std::fs::OpenFile;
use std::io;
use std::io::Write;
use std::os::unix::fs::FileExt;
use std::rt::Files;

/// Makes the log in a folder one without an end, in its own images, and prints what that came to.
pub fn make_endless<R: Files + AllocGlobal, O: Write>(
    rt: &R,
    folder: &str,
    out: &mut O,
) -> Result<(), CommandFailure>
where
    R::File: FileExt + OpenFile + TryLock + Drop,
    ensures written { OnOk result (WritesMaking (O.contents out.old) (O.contents out.new)) }
    ensures refused { IfErr result (λ failure. IfRefused failure (IsOf MayNotMake of_in_place)) }
    ensures silent { IfErr result (λ failure. PrintsNothing failure (O.contents out.old) (O.contents out.new)) }
{
    let made = make_folder_endless(rt, folder).map_err(Fault::from)?;
    print_made(made, out)?;
    out.flush()?;
    Ok(())
}

fn print_made<O: Write>(made: MadeEndless, out: &mut O) -> io::Result<()>
    ensures { OnOk result (Appends (O.contents out.old) (O.contents out.new) (made_text made)) }
{
    match made {
        MadeEndless::Made { disks, slots } => {
            writeln!(out, "made endless: {disks} disks, {slots} slots an epoch")
        }
        MadeEndless::Already { disks } => writeln!(out, "finished {disks} disks"),
    }
}
