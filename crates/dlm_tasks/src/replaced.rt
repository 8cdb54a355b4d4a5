ghost use Rattle.std.specs.Prelude.{IfErr, OnOk};
ghost use Rattle.std.specs.Io.KnownBytes.{Appends};
ghost use Rattle.in_place.specs.Replacing.{MayNotReplace};
ghost use Rattle.dlm_tasks.specs.Faults.{IfRefused, IsOf, of_replacing};
ghost use Rattle.dlm_tasks.specs.InPlace.{WritesReplacing, replaced_text};
ghost use Rattle.dlm_tasks.specs.Refusing.{PrintsNothing};

use crate::command_failure::CommandFailure;
use crate::fault::Fault;
use folders::TryLock;
use in_place::replace_disk;
use std::fs::OpenFile;
use std::io;
use std::io::Write;
use std::os::unix::fs::FileExt;
use std::rt::Files;

/// Puts a new image in the place of a lost one, and prints from which epoch on it takes part.
pub fn replace<R: Files + AllocGlobal, O: Write>(
    rt: &R,
    folder: &str,
    disk: u8,
    out: &mut O,
) -> Result<(), CommandFailure>
where
    R::File: FileExt + OpenFile + TryLock + Drop,
    ensures written { OnOk result (WritesReplacing disk (O.contents out.old) (O.contents out.new)) }
    ensures refused { IfErr result (λ failure. IfRefused failure (IsOf (MayNotReplace disk) of_replacing)) }
    ensures silent { IfErr result (λ failure. PrintsNothing failure (O.contents out.old) (O.contents out.new)) }
{
    let first = replace_disk(rt, folder, disk).map_err(Fault::from)?;
    print_replaced(disk, first, out)?;
    out.flush()?;
    Ok(())
}

fn print_replaced<O: Write>(disk: u8, first: u64, out: &mut O) -> io::Result<()>
    ensures { OnOk result (Appends (O.contents out.old) (O.contents out.new) (replaced_text disk first)) }
{
    writeln!(
        out,
        "replaced disk{disk}: it takes part from epoch {first} on"
    )
}
