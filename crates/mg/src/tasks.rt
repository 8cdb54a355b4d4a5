ghost use Rattle.std.specs.Prelude.{◌≡◌, true, None, OnOk};
ghost use Rattle.lock_command.specs.Command.{is_submittable};
ghost use Rattle.dlm_tasks.specs.Checking.{IsFound};
ghost use Rattle.mg.specs.Tasks.{Marks, Migrates, Replaces, Submits, Tables, WritesSound};

use crate::{as_json, log_as_json};
use dlm_tasks::{CommandFailure, images, made_endless, replaced};
use folders::TryLock;
use lock_command::{Command, HostNumber};
use std::fs::OpenFile;
use std::io::Write;
use std::os::unix::fs::FileExt;
use std::random::RandomSource;
use std::rt::Files;
use std::time::Clock;

// Tasks that print an object where `json` says so, and lines for people else.

/// Submits a command over the images of a folder.
pub fn submit<R: Files + Clock + RandomSource + AllocGlobal, O: Write>(
    rt: &R,
    folder: &str,
    command: Command,
    json: bool,
    out: &mut O,
) -> Result<(), CommandFailure>
where
    R::File: FileExt + OpenFile + TryLock + Drop,
    requires { is_submittable command ≡ true }
    ensures { OnOk result (Submits json folder.now command (O.contents out.old) (O.contents out.new)) }
{
    if json {
        log_as_json::submit(rt, folder, command, out)
    } else {
        images::submit(rt, folder, command, out)
    }
}

/// Shows the lock table, as this host learns it.
pub fn table<R: Files + AllocGlobal, O: Write>(
    rt: &R,
    folder: &str,
    host: HostNumber,
    json: bool,
    out: &mut O,
) -> Result<(), CommandFailure>
where
    R::File: FileExt + OpenFile + TryLock + Drop,
    ensures { OnOk result (Tables json folder.now host (O.contents out.old) (O.contents out.new)) }
{
    if json {
        log_as_json::table(rt, folder, host, out)
    } else {
        images::table(rt, folder, host, out)
    }
}

/// Marks the commands that no mark told this host.
pub fn mark<R: Files + AllocGlobal, O: Write>(
    rt: &R,
    folder: &str,
    host: HostNumber,
    json: bool,
    out: &mut O,
) -> Result<(), CommandFailure>
where
    R::File: FileExt + OpenFile + TryLock + Drop,
    ensures { OnOk result (Marks json folder.now host (O.contents out.old) (O.contents out.new)) }
{
    if json {
        log_as_json::mark(rt, folder, host, out)
    } else {
        images::mark(rt, folder, host, out)
    }
}

/// Looks for damage in the images of a folder.
pub fn check<R: Files + AllocGlobal, O: Write>(
    rt: &R,
    folder: &str,
    json: bool,
    out: &mut O,
) -> Result<(), CommandFailure>
where
    R::File: FileExt + OpenFile + Drop,
    ensures { OnOk result (IsFound None × WritesSound json folder.now (O.contents out.old) (O.contents out.new)) }
{
    if json {
        as_json::check(rt, folder, out)
    } else {
        images::check(rt, folder, out)
    }
}

/// Makes the log in a folder one without an end, in its own images.
pub fn migrate<R: Files + AllocGlobal, O: Write>(
    rt: &R,
    folder: &str,
    json: bool,
    out: &mut O,
) -> Result<(), CommandFailure>
where
    R::File: FileExt + OpenFile + TryLock + Drop,
    ensures { OnOk result (Migrates json folder.now (O.contents out.old) (O.contents out.new)) }
{
    if json {
        as_json::make_endless(rt, folder, out)
    } else {
        made_endless::make_endless(rt, folder, out)
    }
}

/// Puts a new image in the place of a lost one of this number.
pub fn replace<R: Files + AllocGlobal, O: Write>(
    rt: &R,
    folder: &str,
    disk: u8,
    json: bool,
    out: &mut O,
) -> Result<(), CommandFailure>
where
    R::File: FileExt + OpenFile + TryLock + Drop,
    ensures { OnOk result (Replaces json folder.now disk (O.contents out.old) (O.contents out.new)) }
{
    if json {
        as_json::replace(rt, folder, disk, out)
    } else {
        replaced::replace(rt, folder, disk, out)
    }
}
