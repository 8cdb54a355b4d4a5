ghost use Rattle.std.specs.Prelude.{◌≡◌, ◌≢◌, ◌≤◌, ◌↔◌, OnOk, is_ok, if◌then◌else◌};
ghost use Rattle.std.specs.Io.KnownBytes.{Keeps};
ghost use Rattle.dlm_words.specs.Asked.{MayBeAsked};
ghost use Rattle.dlm.specs.Tasks.{HasDoneATask, HasPrinted};

use crate::racing;
use crate::refusal_line::refusal_line;
use dlm_tasks::{CommandFailure, Fault, images, made_endless, replaced};
use dlm_words::{Subcommand, WordsFault, task_of};
use folders::TryLock;
use script_files::{run_file, sweep_file};
use std::fs::OpenFile;
use std::io::Write;
use std::os::unix::fs::FileExt;
use std::random::RandomSource;
use std::rt::Files;
use std::sync::Wait;
use std::thread::Threads;
use std::time::Clock;

/// Does what the words ask for, prints on `out` and a refusal on `err`, and returns the status.
pub fn run_words<
    R: Files + Input + Clock + RandomSource + AllocGlobal + Threads + Wait + Sync,
    O: Write,
    E: Write,
>(rt: &R, words: &[&str], out: &mut O, err: &mut E) -> u8
where
    R::File: FileExt + OpenFile + TryLock + Drop,
    ensures status { result ≤ 2 }
    ensures done { result ≡ 0 → HasDoneATask (O.contents out.old) (O.contents out.new) }
    ensures quiet { result ≡ 0 → err.new ≡ err.old }
    ensures usage { result ≡ 2 → Keeps (O.contents out.old) (O.contents out.new) }
{
    match task_of(rt.alloc(), words) {
        Ok(task) => finish(carry_out(rt, task, out), err),
        Err(fault) => decline(fault, err),
    }
}

fn carry_out<
    R: Files + Input + Clock + RandomSource + AllocGlobal + Threads + Wait + Sync,
    O: Write,
>(rt: &R, task: Subcommand<'_>, out: &mut O) -> Result<(), CommandFailure>
where
    R::File: FileExt + OpenFile + TryLock + Drop,
    requires { MayBeAsked task }
    ensures { OnOk result (HasPrinted task.entry (O.contents out.old) (O.contents out.new)) }
{
    match task {
        Subcommand::Run { script } => run_file(rt, script, out),
        Subcommand::Format {
            folder,
            kind,
            config,
            cluster,
        } => images::format(rt, folder, kind, config, cluster, out),
        Subcommand::Submit { folder, command } => images::submit(rt, folder, command, out),
        Subcommand::Table { folder, host } => images::table(rt, folder, host, out),
        Subcommand::Mark { folder, host } => images::mark(rt, folder, host, out),
        Subcommand::Check { folder } => images::check(rt, folder, out),
        Subcommand::Migrate { old, new, slots } => images::migrate(rt, old, new, slots, out),
        Subcommand::MakeEndless { folder } => made_endless::make_endless(rt, folder, out),
        Subcommand::Replace { folder, disk } => replaced::replace(rt, folder, disk, out),
        Subcommand::Fill { folder, host } => images::fill(rt, folder, host, out),
        Subcommand::Renew {
            old,
            host,
            new,
            config,
            cluster,
            leave,
        } => images::renew(rt, old, host, new, config, cluster, &leave, out),
        Subcommand::Race { last } => racing::race_hosts(rt, last, out),
        Subcommand::Sweep { script } => sweep_file(rt, script, out),
    }
}

/// Tells why the words are no task, and returns the status.
pub fn decline<E: Write>(fault: WordsFault, err: &mut E) -> u8
    ensures some { 1 ≤ result }
    ensures usage { result ≡ 2 ↔ (fault ≢ WordsFault.NoMemory) }
    ensures refusal { result ≡ 1 ↔ (fault ≡ WordsFault.NoMemory) }
{
    match fault {
        WordsFault::NoMemory => refuse(Fault::NoMemory, err),
        WordsFault::Usage => {
            let _ = err.write_all(b"dlm: usage\n");
            2
        }
        WordsFault::BadCommand => {
            let _ = err.write_all(b"dlm: bad command\n");
            2
        }
    }
}

/// Tells why the task did not end well, if so, and returns the status.
fn finish<E: Write>(end: Result<(), CommandFailure>, err: &mut E) -> u8
    ensures status { result ≡ (if is_ok end then 0 else 1) }
    ensures quiet { result ≡ 0 → err.new ≡ err.old }
{
    match end {
        Ok(()) => 0,
        Err(CommandFailure::Refused(fault)) => refuse(fault, err),
        Err(CommandFailure::Output(_)) => 1,
    }
}

/// Tells the refusal, and returns its status.
pub fn refuse<E: Write>(fault: Fault, err: &mut E) -> u8
    ensures { result ≡ 1 }
{
    let _ = err.write_all(refusal_line(fault).as_str().as_bytes());
    1
}
