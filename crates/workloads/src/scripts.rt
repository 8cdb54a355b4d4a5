use crate::digest::Digest;
use crate::failure::Failure;
use crate::numbers::Numbers;
use crate::script_text::write_turns;
use crate::words::Size;
use dlm_tasks::run_script;
use lock_script::read_script;
use std::alloc::Global;

/// How many scripts are run.
const SCRIPTS: u32 = 20;

/// The slots of a log.
const SLOTS: u16 = 1024;

/// Scripts of sixteen hosts that take turns are read and run, as `dlm run` does.
pub fn run_scripts(alloc: Global, size: Size, seed: u32) -> Result<Digest, Failure> {
    let mut digest = Digest::new();
    for number in 0..size.rounds(SCRIPTS) {
        let numbers = Numbers::new(seed, number);
        let mut text = Vec::new(alloc);
        write_turns(&mut text, size.length(SLOTS), numbers)?;
        run_text(alloc, &text, &mut digest)?;
    }
    Ok(digest)
}

fn run_text(alloc: Global, text: &[u8], digest: &mut Digest) -> Result<(), Failure> {
    let script = read_script(alloc, text)?;
    if script.log.len() > usize::from(script.config.slots()) {
        return Err(Failure::Wrong);
    }
    let mut printed = Vec::new(alloc);
    run_script(alloc, &script, &mut printed)?;
    digest.add_bytes(&printed);
    Ok(())
}
