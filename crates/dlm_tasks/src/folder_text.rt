ghost use Rattle.std.specs.Prelude.{IfErr, OnOk};
ghost use Rattle.std.specs.Io.KnownBytes.{Appends};
ghost use Rattle.host.specs.declared.answer.HostAnswer.TheVariants.{Ack};
ghost use Rattle.dlm_tasks.specs.Faults.{IfRefused};
ghost use Rattle.dlm_tasks.specs.Printed.{answer_line, filled_text, formatted_text, marked_text, moved_text, renewed_text, sound_text, table_text};
ghost use Rattle.dlm_tasks.specs.Refusing.{IsNoMemory, PrintsNothing};

use crate::command_failure::CommandFailure;
use crate::fault::Fault;
use dlm_words::ReplyText;
use endless_image::Kind;
use folder_migration::{Moved, Renewed};
use host::Config;
use inspect::queues;
use lock_table::{Reply, Table};
use paxos_block::SlotCount;
use std::alloc::Global;
use std::io;
use std::io::Write;

/// How large a new set of images is, and what the slots are of.
pub fn print_formatted<O: Write>(kind: Kind, config: Config, out: &mut O) -> io::Result<()>
    ensures { OnOk result (Appends (O.contents out.old) (O.contents out.new) (formatted_text kind config)) }
{
    let disks = config.disks();
    let slots = config.slots();
    match kind {
        Kind::Ending => writeln!(out, "formatted {disks} disks, {slots} slots"),
        Kind::Endless => writeln!(out, "formatted {disks} disks, {slots} slots an epoch"),
    }
}

/// Where a command stands in the log, and what the lock table replied to it there.
pub fn print_ack<O: Write>(place: u64, reply: Reply, out: &mut O) -> io::Result<()>
    ensures { OnOk result (Appends (O.contents out.old) (O.contents out.new) (answer_line (Ack place reply))) }
{
    let reply = ReplyText(reply);
    writeln!(out, "ack {place} {reply}")?;
    out.flush()
}

/// How much of the log was recovered, and how many of its slots were marked then.
pub fn print_marked<O: Write>(length: u64, marked: u64, out: &mut O) -> io::Result<()>
    ensures { OnOk result (Appends (O.contents out.old) (O.contents out.new) (marked_text length marked)) }
{
    writeln!(out, "recovered {length}")?;
    writeln!(out, "marked {marked} slots")?;
    out.flush()
}

/// How much of the log was recovered, and the lock table after it.
pub fn print_table<O: Write>(
    alloc: Global,
    length: u64,
    table: &Table,
    out: &mut O,
) -> Result<(), CommandFailure>
    ensures written { OnOk result (Appends (O.contents out.old) (O.contents out.new) (table_text length table.now)) }
    ensures refused { IfErr result (λ failure. IfRefused failure IsNoMemory) }
    ensures silent { IfErr result (λ failure. PrintsNothing failure (O.contents out.old) (O.contents out.new)) }
{
    let picture = table.picture(alloc).map_err(Fault::from)?;
    writeln!(out, "recovered {length}")?;
    queues(&picture, out)?;
    out.flush()?;
    Ok(())
}

pub fn print_filled<O: Write>(count: u16, out: &mut O) -> io::Result<()>
    ensures { OnOk result (Appends (O.contents out.old) (O.contents out.new) (filled_text count)) }
{
    writeln!(out, "filled {count} slots")?;
    out.flush()
}

pub fn print_moved<O: Write>(moved: Moved, slots: SlotCount, out: &mut O) -> io::Result<()>
    ensures { OnOk result (Appends (O.contents out.old) (O.contents out.new) (moved_text slots moved)) }
{
    match moved {
        Moved::Moved { commands, disks } => {
            let slots = slots.get();
            writeln!(
                out,
                "migrated {commands} commands, {disks} disks, {slots} slots"
            )
        }
        Moved::Finished { disks } => writeln!(out, "finished {disks} disks"),
    }
}

pub fn print_renewed<O: Write>(renewed: Renewed, config: Config, out: &mut O) -> io::Result<()>
    ensures { OnOk result (Appends (O.contents out.old) (O.contents out.new) (renewed_text config.slots renewed)) }
{
    match renewed {
        Renewed::Renewed { commands, disks } => {
            let slots = config.slots();
            writeln!(
                out,
                "renewed {commands} commands, {disks} disks, {slots} slots"
            )
        }
        Renewed::Finished { disks } => writeln!(out, "finished {disks} disks"),
    }
}

/// That nothing was found wrong.
pub fn print_sound<O: Write>(out: &mut O) -> io::Result<()>
    ensures { OnOk result (Appends (O.contents out.old) (O.contents out.new) sound_text) }
{
    writeln!(out, "sound")
}
