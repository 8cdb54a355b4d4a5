ghost use Rattle.std.specs.Prelude.{ℕ, List, OnOk};
ghost use Rattle.dlm_tasks.specs.AnyRun.{WritesRun};
ghost use Rattle.dlm_tasks.specs.AnySweep.{WritesSweep};

use dlm_tasks::{CommandFailure, Fault, run_any_script, sweep_any_script};
use epoch_script::read_any_script;
use std::alloc::Global;
use std::io::{Read, Write};
use std::rt::Files;
use std::{fs, io};

/// Runs the script at this path, and prints what hosts answer.
pub fn run_file<R: Files + Input + AllocGlobal, O: Write>(
    rt: &R,
    path: &str,
    out: &mut O,
) -> Result<(), CommandFailure>
    ensures { OnOk result ((bytes : List ℕ) × WritesRun bytes (O.contents out.old) (O.contents out.new)) }
{
    let bytes = read_source(rt, path)?;
    run_bytes(rt.alloc(), bytes.as_slice(), out)
}

/// Reads the whole script and runs it. What it printed goes out also where it is refused later on.
fn run_bytes<O: Write>(alloc: Global, bytes: &[u8], out: &mut O) -> Result<(), CommandFailure>
    ensures { OnOk result (WritesRun bytes.now (O.contents out.old) (O.contents out.new)) }
{
    let script = read_any_script(alloc, bytes).map_err(Fault::from)?;
    let end = run_any_script(alloc, &script, out);
    out.flush()?;
    end
}

/// Runs the variants of the script at this path, and prints how many there were, and how they ended.
pub fn sweep_file<R: Files + Input + AllocGlobal, O: Write>(
    rt: &R,
    path: &str,
    out: &mut O,
) -> Result<(), CommandFailure>
    ensures { OnOk result ((bytes : List ℕ) × WritesSweep bytes (O.contents out.old) (O.contents out.new)) }
{
    let bytes = read_source(rt, path)?;
    sweep_bytes(rt.alloc(), bytes.as_slice(), out)
}

/// Reads the whole script and runs its variants.
fn sweep_bytes<O: Write>(alloc: Global, bytes: &[u8], out: &mut O) -> Result<(), CommandFailure>
    ensures { OnOk result (WritesSweep bytes.now (O.contents out.old) (O.contents out.new)) }
{
    let script = read_any_script(alloc, bytes).map_err(Fault::from)?;
    sweep_any_script(alloc, &script, out)
}

/// The bytes of the file, or of the standard input.
fn read_source<R: Files + Input + AllocGlobal>(rt: &R, path: &str) -> Result<Vec<u8>, Fault> {
    let read = match path {
        "/dev/stdin" => read_input(rt),
        _ => fs::read(rt, path),
    };
    match read {
        Ok(bytes) => Ok(bytes),
        Err(error) => Err(Fault::of_reading(&error)),
    }
}

fn read_input<R: Input + AllocGlobal>(rt: &R) -> io::Result<Vec<u8>> {
    let mut bytes = Vec::new(rt.alloc());
    rt.reader().read_to_end(&mut bytes)?;
    Ok(bytes)
}
