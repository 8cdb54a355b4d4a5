ghost use Rattle.std.specs.Prelude.{◌≡◌, ℕ, true, Option, IfErr, OnOk};
ghost use Rattle.disk.specs.FileStates.{FileGives};
ghost use Rattle.lock_command.specs.Command.{is_submittable};
ghost use Rattle.epoch_host.specs.declared.answer.EpochAnswer.{EpochAnswer};
ghost use Rattle.epoch_host.specs.declared.task.EpochTask.TheVariants.{Look};
ghost use Rattle.epoch_images.specs.Working.{HasWorked};
ghost use Rattle.dlm_tasks.specs.Endless.{HasBegun, WritesEndlessAcknowledgement, WritesEndlessMarks, WritesEndlessTable};
ghost use Rattle.dlm_tasks.specs.Faults.{IfRefused};
ghost use Rattle.dlm_tasks.specs.Refusing.{IsEndlessNotShown, PrintsNothing, RefusesEndlessRecovery, RefusesEndlessSubmission};

use crate::command_failure::CommandFailure;
use crate::folder_text::{print_ack, print_marked, print_table};
use crate::images::TRIES;
use disk::FileDisk;
use epoch_images::{EpochDiskHost, start_epoch_host, submit_in_turn};
use lock_command::{Command, HostNumber};
use log_folders::EndlessFolder;
use std::alloc::Global;
use std::fs::OpenFile;
use std::io::Write;
use std::os::unix::fs::FileExt;
use std::random::RandomSource;
use std::time::Clock;

// Tasks over images of a log without an end. A host looks first: what marks tell it then costs one read a slot. A command that is in the log already takes another place, and gets
// the reply that the lock table keeps. So no second host is needed for it.

/// Submits a command over the images of a folder.
pub fn submit<R: Clock + RandomSource + AllocGlobal, F: FileExt + OpenFile + Drop, O: Write>(
    rt: &R,
    images: EndlessFolder<F>,
    command: Command,
    out: &mut O,
) -> Result<(), CommandFailure>
    requires { is_submittable command ≡ true }
    ensures written { OnOk result (WritesEndlessAcknowledgement TRIES command (O.contents out.old) (O.contents out.new)) }
    ensures refused { IfErr result (λ failure. IfRefused failure (RefusesEndlessSubmission TRIES command)) }
    ensures silent { IfErr result (λ failure. PrintsNothing failure (O.contents out.old) (O.contents out.new)) }
{
    let mut host = begun(images, rt.alloc(), command.host);
    submit_through(rt, &mut host, command, out)
}

/// Learns the log, and prints how long it is and the lock table after it.
pub fn table<F: FileExt + OpenFile + Drop, O: Write>(
    alloc: Global,
    images: EndlessFolder<F>,
    host: HostNumber,
    out: &mut O,
) -> Result<(), CommandFailure>
    ensures written { OnOk result (WritesEndlessTable TRIES host (O.contents out.old) (O.contents out.new)) }
    ensures refused { IfErr result (λ failure. IfRefused failure (IsEndlessNotShown TRIES host)) }
    ensures silent { IfErr result (λ failure. PrintsNothing failure (O.contents out.old) (O.contents out.new)) }
{
    let mut host = begun(images, alloc, host);
    recover_table(alloc, &mut host, out)
}

/// Learns the log, and marks each slot of the newest epoch that no mark told.
pub fn mark<F: FileExt + OpenFile + Drop, O: Write>(
    alloc: Global,
    images: EndlessFolder<F>,
    host: HostNumber,
    out: &mut O,
) -> Result<(), CommandFailure>
    ensures written { OnOk result (WritesEndlessMarks TRIES host (O.contents out.old) (O.contents out.new)) }
    ensures refused { IfErr result (λ failure. IfRefused failure (RefusesEndlessRecovery TRIES host)) }
    ensures silent { IfErr result (λ failure. PrintsNothing failure (O.contents out.old) (O.contents out.new)) }
{
    let mut host = begun(images, alloc, host);
    mark_through(&mut host, out)
}

/// A host over all epochs of a folder's disks, which has looked. If the look was refused, the task behind it says why.
fn begun<F: FileExt + OpenFile + Drop>(
    images: EndlessFolder<F>,
    alloc: Global,
    host: HostNumber,
) -> EpochDiskHost<FileDisk<F>>
    ensures begun { HasBegun host result }
    ensures number { result.host.host ≡ host }
{
    let mut over = start_epoch_host(images, alloc, host);
    look(&mut over);
    over
}

fn look<F: FileExt + OpenFile + Drop>(host: &mut EpochDiskHost<FileDisk<F>>)
    ensures looked { (seen : Option EpochAnswer) × HasWorked FileGives Look seen host.old host.new }
    ensures number { host.new.host.host ≡ host.old.host.host }
{
    let _ = host.look();
}

fn submit_through<R: Clock + RandomSource, F: FileExt + OpenFile + Drop, O: Write>(
    rt: &R,
    host: &mut EpochDiskHost<FileDisk<F>>,
    command: Command,
    out: &mut O,
) -> Result<(), CommandFailure>
    requires asked { is_submittable command ≡ true }
    requires host { command.host ≡ host.old.host.host }
    ensures written { OnOk result (HasBegun command.host host.old → WritesEndlessAcknowledgement TRIES command (O.contents out.old) (O.contents out.new)) }
    ensures refused { IfErr result (λ failure. IfRefused failure (λ fault. HasBegun command.host host.old → RefusesEndlessSubmission TRIES command fault)) }
    ensures silent { IfErr result (λ failure. PrintsNothing failure (O.contents out.old) (O.contents out.new)) }
{
    let placed = submit_in_turn(rt, host, command, TRIES)?;
    print_ack(placed.place, placed.reply, out)?;
    // The command is in the log whether or not the marking succeeds.
    let _ = host.mark(placed.place);
    Ok(())
}

fn recover_table<F: FileExt + OpenFile + Drop, O: Write>(
    alloc: Global,
    host: &mut EpochDiskHost<FileDisk<F>>,
    out: &mut O,
) -> Result<(), CommandFailure>
    ensures written { OnOk result ((number : ℕ) → HasBegun number host.old → WritesEndlessTable TRIES number (O.contents out.old) (O.contents out.new)) }
    ensures refused { IfErr result (λ failure. IfRefused failure (λ fault. (number : ℕ) → HasBegun number host.old → IsEndlessNotShown TRIES number fault)) }
    ensures silent { IfErr result (λ failure. PrintsNothing failure (O.contents out.old) (O.contents out.new)) }
{
    let length = host.recover(TRIES)?;
    match host.table() {
        Some(table) => print_table(alloc, length, table, out),
        None => unreachable!(),
    }
}

fn mark_through<F: FileExt + OpenFile + Drop, O: Write>(
    host: &mut EpochDiskHost<FileDisk<F>>,
    out: &mut O,
) -> Result<(), CommandFailure>
    ensures written { OnOk result ((number : ℕ) → HasBegun number host.old → WritesEndlessMarks TRIES number (O.contents out.old) (O.contents out.new)) }
    ensures refused { IfErr result (λ failure. IfRefused failure (λ fault. (number : ℕ) → HasBegun number host.old → RefusesEndlessRecovery TRIES number fault)) }
    ensures silent { IfErr result (λ failure. PrintsNothing failure (O.contents out.old) (O.contents out.new)) }
{
    let log = host.recover_and_mark(TRIES)?;
    print_marked(log.length, log.marked, out)?;
    Ok(())
}
