ghost use Rattle.std.specs.Prelude.{◌≡◌, true, OnOk};
ghost use Rattle.lock_command.specs.Command.{is_submittable};
ghost use Rattle.mg.specs.Json.{PrintsMarked, PrintsSubmitted, PrintsTabled, WritesMarked, WritesSubmitted, WritesTabled};

use crate::as_json::{garbled, no_memory, print_object, text_in};
use dlm_tasks::{CommandFailure, images};
use folders::TryLock;
use lock_command::{Command, HostNumber};
use mg_words::{ack_in, marks_in, table_in};
use std::alloc::Global;
use std::fs::OpenFile;
use std::io::Write;
use std::os::unix::fs::FileExt;
use std::random::RandomSource;
use std::rt::Files;
use std::time::Clock;

// Tasks of a host over the log. Each tells people first what it came to, in memory, and that is taken apart for programs.

/// Submits a command, and prints where it stands in the log, and the lock table's reply.
pub fn submit<R: Files + Clock + RandomSource + AllocGlobal, O: Write>(
    rt: &R,
    folder: &str,
    command: Command,
    out: &mut O,
) -> Result<(), CommandFailure>
where
    R::File: FileExt + OpenFile + TryLock + Drop,
    requires { is_submittable command ≡ true }
    ensures { OnOk result (WritesSubmitted folder.now command (O.contents out.old) (O.contents out.new)) }
{
    let mut told = Vec::new(rt.alloc());
    images::submit(rt, folder, command, &mut told)?;
    print_submitted(rt.alloc(), folder, told.as_slice(), out)
}

/// Learns the log, and prints how many commands it has, and the lines of the lock table.
pub fn table<R: Files + AllocGlobal, O: Write>(
    rt: &R,
    folder: &str,
    host: HostNumber,
    out: &mut O,
) -> Result<(), CommandFailure>
where
    R::File: FileExt + OpenFile + TryLock + Drop,
    ensures { OnOk result (WritesTabled folder.now host (O.contents out.old) (O.contents out.new)) }
{
    let mut told = Vec::new(rt.alloc());
    images::table(rt, folder, host, &mut told)?;
    print_tabled(rt.alloc(), folder, told.as_slice(), out)
}

/// Learns the log, marks what no mark told, and prints how many commands there are, and how many were marked.
pub fn mark<R: Files + AllocGlobal, O: Write>(
    rt: &R,
    folder: &str,
    host: HostNumber,
    out: &mut O,
) -> Result<(), CommandFailure>
where
    R::File: FileExt + OpenFile + TryLock + Drop,
    ensures { OnOk result (WritesMarked folder.now host (O.contents out.old) (O.contents out.new)) }
{
    let mut told = Vec::new(rt.alloc());
    images::mark(rt, folder, host, &mut told)?;
    print_marked(rt.alloc(), folder, told.as_slice(), out)
}

fn print_submitted<O: Write>(
    alloc: Global,
    folder: &str,
    told: &[u8],
    out: &mut O,
) -> Result<(), CommandFailure>
    ensures { OnOk result (PrintsSubmitted folder.now told.now (O.contents out.old) (O.contents out.new)) }
{
    let told = text_in(told)?;
    let Some(ack) = ack_in(told) else {
        return Err(garbled());
    };
    let object = mg_words::submitted(alloc, folder, ack.place, ack.reply).map_err(no_memory)?;
    print_object(object.as_slice(), out)?;
    Ok(())
}

fn print_tabled<O: Write>(
    alloc: Global,
    folder: &str,
    told: &[u8],
    out: &mut O,
) -> Result<(), CommandFailure>
    ensures { OnOk result (PrintsTabled folder.now told.now (O.contents out.old) (O.contents out.new)) }
{
    let told = text_in(told)?;
    let Some(table) = table_in(told) else {
        return Err(garbled());
    };
    let object = mg_words::tabled(alloc, folder, table.recovered, table.lines).map_err(no_memory)?;
    print_object(object.as_slice(), out)?;
    Ok(())
}

fn print_marked<O: Write>(
    alloc: Global,
    folder: &str,
    told: &[u8],
    out: &mut O,
) -> Result<(), CommandFailure>
    ensures { OnOk result (PrintsMarked folder.now told.now (O.contents out.old) (O.contents out.new)) }
{
    let told = text_in(told)?;
    let Some(marks) = marks_in(told) else {
        return Err(garbled());
    };
    let object = mg_words::marked(alloc, folder, marks.recovered, marks.marked).map_err(no_memory)?;
    print_object(object.as_slice(), out)?;
    Ok(())
}
