use crate::digest::Digest;
use crate::failure::Failure;
use crate::numbers::Numbers;
use crate::script_text::write_takeover;
use crate::words::Size;
use fault_sweep::sweep;
use lock_script::read_script;
use std::alloc::Global;

/// How many scripts are swept.
const SCRIPTS: u32 = 4;

/// Sweeps of scripts in which hosts submit in turn, over three disks.
pub fn sweep_scripts(alloc: Global, size: Size, seed: u32) -> Result<Digest, Failure> {
    let mut digest = Digest::new();
    for script in 0..size.rounds(SCRIPTS) {
        sweep_script(alloc, size, seed, script, &mut digest)?;
    }
    Ok(digest)
}

fn sweep_script(
    alloc: Global,
    size: Size,
    seed: u32,
    number: u32,
    digest: &mut Digest,
) -> Result<(), Failure> {
    let mut text = Vec::new(alloc);
    write_takeover(&mut text, size, Numbers::new(seed, number))?;
    let script = read_script(alloc, &text)?;
    if script.log.len() > usize::from(script.config.slots()) {
        return Err(Failure::Wrong);
    }
    let swept = sweep(alloc, &script)?;
    digest.add(swept.runs as u64);
    digest.add(swept.recovered as u64);
    digest.add(swept.wrong as u64);
    digest.add(swept.first.map_or(0, |first| first as u64 + 1));
    Ok(())
}
