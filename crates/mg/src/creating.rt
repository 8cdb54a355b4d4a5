ghost use Rattle.std.specs.Prelude.{◌≡◌, ◌≤◌, false, true, IfSome, OnOk};
ghost use Rattle.endless_image.specs.Kinds.{IsSlotsBy, kind_by};
ghost use Rattle.mg.specs.Tasks.{Creates, shape_by};

use crate::as_json::{no_memory, print_object};
use dlm_tasks::{CommandFailure, images};
use endless_image::Kind;
use paxos_block::Config;
use std::fs::OpenFile;
use std::io;
use std::io::Write;
use std::os::unix::fs::FileExt;
use std::rt::Files;

/// Makes the images of a cluster, and prints that, for people or as an object.
pub fn create<R: Files + AllocGlobal, O: Write>(
    rt: &R,
    folder: &str,
    cluster: u64,
    disks: u8,
    slots: Option<u16>,
    json: bool,
    out: &mut O,
) -> Result<(), CommandFailure>
where
    R::File: FileExt + OpenFile + Drop,
    requires disks { (1 ≤ disks) × (disks ≤ 7) }
    requires slots { IfSome slots (λ count. (1 ≤ count) × (count ≤ 4096)) }
    ensures { OnOk result (Creates json folder.now cluster disks slots (O.contents out.old) (O.contents out.new)) }
{
    if json {
        create_as_json(rt, folder, cluster, disks, slots, out)
    } else {
        create_in_words(rt, folder, cluster, disks, slots, out)
    }
}

fn create_in_words<R: Files + AllocGlobal, O: Write>(
    rt: &R,
    folder: &str,
    cluster: u64,
    disks: u8,
    slots: Option<u16>,
    out: &mut O,
) -> Result<(), CommandFailure>
where
    R::File: FileExt + OpenFile + Drop,
    requires disks { (1 ≤ disks) × (disks ≤ 7) }
    requires slots { IfSome slots (λ count. (1 ≤ count) × (count ≤ 4096)) }
    ensures { OnOk result (Creates false folder.now cluster disks slots (O.contents out.old) (O.contents out.new)) }
{
    let log = log_of(disks, slots);
    images::format(rt, folder, log.0, log.1, cluster, out)?;
    Ok(())
}

/// The object is there before the images are made, so that memory is not wanting afterwards.
fn create_as_json<R: Files + AllocGlobal, O: Write>(
    rt: &R,
    folder: &str,
    cluster: u64,
    disks: u8,
    slots: Option<u16>,
    out: &mut O,
) -> Result<(), CommandFailure>
where
    R::File: FileExt + OpenFile + Drop,
    requires disks { (1 ≤ disks) × (disks ≤ 7) }
    requires slots { IfSome slots (λ count. (1 ≤ count) × (count ≤ 4096)) }
    ensures { OnOk result (Creates true folder.now cluster disks slots (O.contents out.old) (O.contents out.new)) }
{
    let object = mg_words::created(rt.alloc(), folder, cluster, disks, slots).map_err(no_memory)?;
    let log = log_of(disks, slots);
    images::format(rt, folder, log.0, log.1, cluster, &mut io::sink())?;
    print_object(object.as_slice(), out)?;
    Ok(())
}

/// The kind of log that the images are to have, and how large the cluster is.
fn log_of(disks: u8, slots: Option<u16>) -> (Kind, Config)
    requires disks { (1 ≤ disks) × (disks ≤ 7) }
    requires slots { IfSome slots (λ count. (1 ≤ count) × (count ≤ 4096)) }
    ensures kind { result.0 ≡ (kind_by slots).0 }
    ensures config { result.1 ≡ shape_by disks slots }
    ensures may { IsSlotsBy result.0 result.1.slots }
{
    let log = Kind::asked_by(slots);
    let config = config_of(disks, log.1);
    (log.0, config)
}

/// How large a cluster is, whose numbers are in their ranges.
fn config_of(disks: u8, slots: u16) -> Config
    requires disks { (1 ≤ disks) × (disks ≤ 7) }
    requires slots { (1 ≤ slots) × (slots ≤ 4096) }
    ensures { result ≡ record { disks = disks; slots = slots } }
{
    match Config::new(disks, slots) {
        Some(config) => config,
        None => unreachable!(),
    }
}
