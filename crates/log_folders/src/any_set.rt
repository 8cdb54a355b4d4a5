ghost use Rattle.std.specs.Prelude.{◌≡◌, ◌<◌, ◌≤◌, IfOk, IfErr, length};
ghost use Rattle.torn_block.specs.declared.layout.TheConstants.{DISKS, SLOTS};
ghost use Rattle.endless_image.specs.Kinds.{kind_of};
ghost use Rattle.log_folders.specs.AnyHeaders.{IsAnyHeader, cluster_in, disks_in, slots_in};
ghost use Rattle.log_folders.specs.AnySets.{AreAnyHeaders, AreFirsts, HasAnyNumbers, HasAnySetFault, HasNone, IsFirst, IsSetOf, first_of};

use disk::ImageFault;
use endless_image::{AnyHeader, Kind, are_one_set};
use folders::SetFault;
use paxos_block::Config;
use torn_block::DISKS;

/// What the images of one set have in common.
#[derive(Clone, Copy, Debug, PartialEq, Eq)]
pub struct AnySet {
    pub kind: Kind,
    /// Of a log without an end, its slots are those of an epoch.
    pub config: Config,
    pub cluster: u64,
}

/// The set that images are, by what was found of each: its header, or why it is refused.
pub fn set_of_any(found: &[Result<AnyHeader, ImageFault>]) -> Result<AnySet, SetFault>
    requires some { 0 < length found.now }
    requires few { length found.now ≤ DISKS }
    requires headers { AreAnyHeaders found.now }
    ensures set { IfOk result (λ set. HasAnyNumbers found.now set.kind set.config set.cluster) }
    ensures fault { IfErr result (HasAnySetFault found.now) }
{
    let header = common_header(found)?;
    Ok(set_by(&header))
}

/// The header of the first image that is used, where all are of one set.
fn common_header(found: &[Result<AnyHeader, ImageFault>]) -> Result<AnyHeader, SetFault>
    requires some { 0 < length found.now }
    requires few { length found.now ≤ DISKS }
    ensures set { IfOk result (IsSetOf found.now) }
    ensures fault { IfErr result (HasAnySetFault found.now) }
{
    let first = first_header(found)?;
    for number in 0..found.len() {
        if let Ok(header) = found[number] {
            if !are_one_set(&first, &header) {
                return Err(SetFault {
                    disk: number as u8,
                    fault: ImageFault::WrongHeader,
                });
            }
        }
    }
    Ok(first)
}

/// The header of the first image that is used.
fn first_header(found: &[Result<AnyHeader, ImageFault>]) -> Result<AnyHeader, SetFault>
    requires { 0 < length found.now }
    ensures first { IfOk result (IsFirst found.now) }
    ensures none { IfErr result (λ f. (f.disk ≡ 0) × HasNone found.now f.fault) }
{
    for number in 0..found.len() {
        if let Ok(header) = found[number] {
            return Ok(header);
        }
    }
    match found[0] {
        Err(fault) => Err(SetFault { disk: 0, fault }),
        Ok(_) => unreachable!(),
    }
}

/// By the number of each image, the first epoch in which it takes part. It is 0 of an image that is refused, and of one of a log that ends.
pub fn first_epochs(
    found: &[Result<AnyHeader, ImageFault>; DISKS as usize],
) -> [u64; DISKS as usize]
    ensures { AreFirsts found.now result }
{
    let mut firsts = [0; DISKS as usize];
    for disk in 0..usize::from(DISKS) {
        firsts[disk] = first_epoch(&found[disk]);
    }
    firsts
}

fn first_epoch(found: &Result<AnyHeader, ImageFault>) -> u64
    ensures { result ≡ first_of found.now }
{
    match found {
        Ok(AnyHeader::Endless(header)) => header.first_epoch,
        Ok(AnyHeader::Ending(_)) => 0,
        Err(_) => 0,
    }
}

/// The set whose images have this header.
fn set_by(header: &AnyHeader) -> AnySet
    requires { IsAnyHeader header.now }
    ensures kind { result.kind ≡ kind_of header.now }
    ensures disks { result.config.disks ≡ disks_in header.now }
    ensures slots { result.config.slots ≡ slots_in header.now }
    ensures cluster { result.cluster ≡ cluster_in header.now }
{
    match header {
        AnyHeader::Ending(header) => AnySet {
            kind: Kind::Ending,
            config: config_of(header.disks, header.slots),
            cluster: header.cluster,
        },
        AnyHeader::Endless(header) => AnySet {
            kind: Kind::Endless,
            config: config_of(header.disks, header.slots),
            cluster: header.cluster,
        },
    }
}

fn config_of(disks: u8, slots: u32) -> Config
    requires disks { (1 ≤ disks) × (disks ≤ DISKS) }
    requires slots { (1 ≤ slots) × (slots ≤ SLOTS) }
    ensures { result ≡ record { disks = disks; slots = slots } }
{
    match Config::new(disks, slots as u16) {
        Some(config) => config,
        None => unreachable!(),
    }
}
