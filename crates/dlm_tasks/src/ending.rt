ghost use Rattle.std.specs.Prelude.{◌≡◌, ℕ, true, IfErr, IfOk, OnOk};
ghost use Rattle.lock_command.specs.Command.{is_submittable};
ghost use Rattle.host.specs.Host.{fresh};
ghost use Rattle.host.specs.Kept.{LeadsTo};
ghost use Rattle.folder_migration.specs.Filling.{IsOver};
ghost use Rattle.dlm_tasks.specs.Faults.{IfRefused};
ghost use Rattle.dlm_tasks.specs.Printed as printed;
ghost use Rattle.dlm_tasks.specs.Printed.{Begins, HasSearched, IsFresh, WritesAcknowledgement, WritesFilling, WritesMarks, WritesTable};
ghost use Rattle.dlm_tasks.specs.Refusing.{IsNoMemory, IsNotFilled, IsNotMarked, IsNotReopened, IsNotShown, IsNotSubmitted, PrintsNothing, RefusesFilling, RefusesMarks, RefusesSubmission};

use crate::command_failure::CommandFailure;
use crate::fault::Fault;
use crate::folder_text::{print_ack, print_filled, print_marked, print_table};
use crate::images::TRIES;
use disk::FileDisk;
use dlm_images::{DiskHost, start_host, submit_patiently};
use folder_migration::fill_log;
use folders::{Folder, open_folder};
use host::Config;
use lock_command::{Command, HostNumber};
use std::alloc::Global;
use std::fs::OpenFile;
use std::io::Write;
use std::os::unix::fs::FileExt;
use std::random::RandomSource;
use std::rt::Files;
use std::time::Clock;

// Tasks over images of a log that ends.

/// Submits a command over the images of a folder. One that is in the log already keeps its slot and its reply.
pub fn submit<R: Files + Clock + RandomSource + AllocGlobal, O: Write>(
    rt: &R,
    folder: &str,
    images: Folder<R::File>,
    command: Command,
    out: &mut O,
) -> Result<(), CommandFailure>
where
    R::File: FileExt + OpenFile + Drop,
    requires { is_submittable command ≡ true }
    ensures written { OnOk result (WritesAcknowledgement TRIES command (O.contents out.old) (O.contents out.new)) }
    ensures refused { IfErr result (λ failure. IfRefused failure (IsNotSubmitted TRIES command)) }
    ensures silent { IfErr result (λ failure. PrintsNothing failure (O.contents out.old) (O.contents out.new)) }
{
    let mut over = started(images, rt.alloc(), command.host)?;
    submit_in(rt, folder, &mut over, command, out)
}

/// Learns the log, and prints how much that is and the lock table after it.
pub fn table<F: FileExt + OpenFile + Drop, O: Write>(
    alloc: Global,
    images: Folder<F>,
    host: HostNumber,
    out: &mut O,
) -> Result<(), CommandFailure>
    ensures written { OnOk result (WritesTable TRIES host (O.contents out.old) (O.contents out.new)) }
    ensures refused { IfErr result (λ failure. IfRefused failure (IsNotShown TRIES host)) }
    ensures silent { IfErr result (λ failure. PrintsNothing failure (O.contents out.old) (O.contents out.new)) }
{
    let mut over = started(images, alloc, host)?;
    recover_table(alloc, &mut over, out)
}

/// Learns the log, and marks each slot that no mark told.
pub fn mark<F: FileExt + OpenFile + Drop, O: Write>(
    alloc: Global,
    images: Folder<F>,
    host: HostNumber,
    out: &mut O,
) -> Result<(), CommandFailure>
    ensures written { OnOk result (WritesMarks TRIES host (O.contents out.old) (O.contents out.new)) }
    ensures refused { IfErr result (λ failure. IfRefused failure (IsNotMarked TRIES host)) }
    ensures silent { IfErr result (λ failure. PrintsNothing failure (O.contents out.old) (O.contents out.new)) }
{
    let mut over = started(images, alloc, host)?;
    mark_through(&mut over, out)
}

/// Fills the log up with requests that change nothing.
pub fn fill<R: Clock + RandomSource + AllocGlobal, F: FileExt + OpenFile + Drop, O: Write>(
    rt: &R,
    images: Folder<F>,
    host: HostNumber,
    out: &mut O,
) -> Result<(), CommandFailure>
    ensures written { OnOk result (WritesFilling host (O.contents out.old) (O.contents out.new)) }
    ensures refused { IfErr result (λ failure. IfRefused failure (IsNotFilled host)) }
    ensures silent { IfErr result (λ failure. PrintsNothing failure (O.contents out.old) (O.contents out.new)) }
{
    let config = images.config;
    let mut over = started(images, rt.alloc(), host)?;
    fill_through(rt, &mut over, config, out)
}

/// A host over the disks of a folder, which has learned nothing yet.
fn started<F: FileExt + OpenFile + Drop>(
    images: Folder<F>,
    alloc: Global,
    host: HostNumber,
) -> Result<DiskHost<FileDisk<F>>, Fault>
    ensures over { IfOk result (λ over. LeadsTo images.config host fresh over.core) }
    ensures fresh { IfOk result (λ over. IsFresh host over) }
    ensures fault { IfErr result IsNoMemory }
{
    let over = start_host(images, alloc, host)?;
    Ok(over)
}

/// The same of a folder that was found, which is opened once more. The host's number is locked by whoever calls this.
fn host_in<R: Files + AllocGlobal>(
    rt: &R,
    folder: &str,
    host: HostNumber,
) -> Result<DiskHost<FileDisk<R::File>>, Fault>
where
    R::File: FileExt + OpenFile + Drop,
    ensures fresh { IfOk result (λ over. IsFresh host over) }
    ensures fault { IfErr result IsNotReopened }
{
    let images = open_folder(rt, folder)?;
    let over = started(images, rt.alloc(), host)?;
    Ok(over)
}

// What is done through a host is a function of its own, to which the host is lent: who owns one drops it on each way out. A host that begins looks
// first: what marks tell it then costs one read a slot. If the look is refused, the operation behind it says why.

// A command that the look finds in the log is asked again. Who submits one places it behind all that it knows, so a host that knows nothing submits that one, and
// comes upon it where it stands.

fn submit_in<R: Files + Clock + RandomSource + AllocGlobal, O: Write>(
    rt: &R,
    folder: &str,
    host: &mut DiskHost<FileDisk<R::File>>,
    command: Command,
    out: &mut O,
) -> Result<(), CommandFailure>
where
    R::File: FileExt + OpenFile + Drop,
    requires asked { is_submittable command ≡ true }
    requires fresh { IsFresh command.host host.old }
    ensures written { OnOk result (WritesAcknowledgement TRIES command (O.contents out.old) (O.contents out.new)) }
    ensures refused { IfErr result (λ failure. IfRefused failure (IsNotSubmitted TRIES command)) }
    ensures silent { IfErr result (λ failure. PrintsNothing failure (O.contents out.old) (O.contents out.new)) }
{
    if has_found(host, &command) {
        let mut other = host_in(rt, folder, command.host)?;
        submit_through(rt, &mut other, command, out)
    } else {
        submit_through(rt, host, command, out)
    }
}

/// Whether a look finds this command in the log.
fn has_found<F: FileExt + OpenFile + Drop>(
    host: &mut DiskHost<FileDisk<F>>,
    command: &Command,
) -> bool
    ensures searched { IsFresh command.now.host host.old → HasSearched command.now result host.new }
    ensures same { host.new.core.learner.host ≡ host.old.core.learner.host }
{
    let _ = host.look();
    is_among(command, host.prefix())
}

fn is_among(command: &Command, learned: &[Command]) -> bool
    ensures { result ≡ printed.is_among command.now learned.now }
{
    let bytes = command.encode();
    learned.iter().any(|one| one.encode() == bytes)
}

fn submit_through<R: Clock + RandomSource, F: FileExt + OpenFile + Drop, O: Write>(
    rt: &R,
    host: &mut DiskHost<FileDisk<F>>,
    command: Command,
    out: &mut O,
) -> Result<(), CommandFailure>
    requires asked { is_submittable command ≡ true }
    requires host { command.host ≡ host.old.core.learner.host }
    ensures written { OnOk result (Begins command host.old → WritesAcknowledgement TRIES command (O.contents out.old) (O.contents out.new)) }
    ensures refused { IfErr result (λ failure. IfRefused failure (λ fault. Begins command host.old → RefusesSubmission TRIES command fault)) }
    ensures silent { IfErr result (λ failure. PrintsNothing failure (O.contents out.old) (O.contents out.new)) }
{
    let done = submit_patiently(rt, host, command, TRIES)?;
    print_ack(u64::from(done.slot), done.reply, out)?;
    // The command is in the log whether or not the marking succeeds.
    let _ = host.mark(done.slot);
    Ok(())
}

fn recover_table<F: FileExt + OpenFile + Drop, O: Write>(
    alloc: Global,
    host: &mut DiskHost<FileDisk<F>>,
    out: &mut O,
) -> Result<(), CommandFailure>
    ensures written { OnOk result ((number : ℕ) → IsFresh number host.old → WritesTable TRIES number (O.contents out.old) (O.contents out.new)) }
    ensures refused { IfErr result (λ failure. IfRefused failure (λ fault. (number : ℕ) → IsFresh number host.old → IsNotShown TRIES number fault)) }
    ensures silent { IfErr result (λ failure. PrintsNothing failure (O.contents out.old) (O.contents out.new)) }
{
    let _ = host.look();
    let length = host.recover(TRIES)?;
    print_table(alloc, u64::from(length), host.table(), out)
}

fn mark_through<F: FileExt + OpenFile + Drop, O: Write>(
    host: &mut DiskHost<FileDisk<F>>,
    out: &mut O,
) -> Result<(), CommandFailure>
    ensures written { OnOk result ((number : ℕ) → IsFresh number host.old → WritesMarks TRIES number (O.contents out.old) (O.contents out.new)) }
    ensures refused { IfErr result (λ failure. IfRefused failure (λ fault. (number : ℕ) → IsFresh number host.old → RefusesMarks TRIES number fault)) }
    ensures silent { IfErr result (λ failure. PrintsNothing failure (O.contents out.old) (O.contents out.new)) }
{
    // A slot that the look learns from a mark need not be marked again.
    let _ = host.look();
    let log = host.recover_and_mark(TRIES)?;
    let length = u64::from(log.length);
    let marked = u64::from(log.marked);
    print_marked(length, marked, out)?;
    Ok(())
}

fn fill_through<R: Clock + RandomSource + AllocGlobal, F: FileExt + OpenFile + Drop, O: Write>(
    rt: &R,
    host: &mut DiskHost<FileDisk<F>>,
    config: Config,
    out: &mut O,
) -> Result<(), CommandFailure>
    requires { IsOver config host.old }
    ensures written { OnOk result ((number : ℕ) → LeadsTo config number fresh host.old.core → WritesFilling number (O.contents out.old) (O.contents out.new)) }
    ensures refused { IfErr result (λ failure. IfRefused failure (λ fault. (number : ℕ) → LeadsTo config number fresh host.old.core → RefusesFilling number fault)) }
    ensures silent { IfErr result (λ failure. PrintsNothing failure (O.contents out.old) (O.contents out.new)) }
{
    let _ = host.look();
    let count = fill_log(rt, rt.alloc(), host, config)?;
    print_filled(count, out)?;
    Ok(())
}
