ghost use Rattle.std.specs.Prelude.{◌≡◌, ◌<◌, ◌≤◌, ◌↔◌, IfOk, IfErr, IsTrue, length, None};
ghost use Rattle.torn_block.specs.declared.layout.TheConstants.{DISKS};
ghost use Rattle.paxos_block.specs.Headers.{IsHeader};
ghost use Rattle.folders.specs.Sets.{AreHeaders, IsSameSet, IsSetOf, HasNumbers};
ghost use Rattle.folders.specs.SetFaults.{HasSetFault};

use disk::ImageFault;
use paxos_block::{Config, Header};
use torn_block::DISKS;

/// What the images of one set have in common.
#[derive(Clone, Copy, Debug, PartialEq, Eq)]
pub struct ImageSet {
    pub config: Config,
    pub cluster: u64,
}

/// Why there is no set of images, and which image is at fault.
#[derive(Clone, Copy, Debug, PartialEq, Eq)]
pub struct SetFault {
    pub disk: u8,
    pub fault: ImageFault,
}

/// The set that images are, by what was found of each: its right header, or why it is refused.
pub fn set_of(found: &[Result<Header, ImageFault>]) -> Result<ImageSet, SetFault>
    requires some { 0 < length found.now }
    requires few { length found.now ≤ DISKS }
    requires headers { AreHeaders found.now }
    ensures set { IfOk result (λ set. HasNumbers found.now set.config set.cluster) }
    ensures fault { IfErr result (HasSetFault found.now) }
{
    let header = common_header(found)?;
    Ok(ImageSet {
        config: config_of(&header),
        cluster: header.cluster,
    })
}

/// The header of the first image that has a right one, where all right ones are of one set.
fn common_header(found: &[Result<Header, ImageFault>]) -> Result<Header, SetFault>
    requires some { 0 < length found.now }
    requires few { length found.now ≤ DISKS }
    ensures set { IfOk result (IsSetOf found.now) }
    ensures fault { IfErr result (HasSetFault found.now) }
{
    let mut first: Option<Header> = None;
    for number in 0..found.len() {
        if let Ok(header) = found[number] {
            match first {
                None => first = Some(header),
                Some(first) => {
                    if !is_same_set(&first, &header) {
                        return Err(SetFault {
                            disk: number as u8,
                            fault: ImageFault::WrongHeader,
                        });
                    }
                }
            }
        }
    }
    match (first, found[0]) {
        (Some(header), _) => Ok(header),
        (None, Err(fault)) => Err(SetFault { disk: 0, fault }),
        (None, Ok(_)) => unreachable!(),
    }
}

fn is_same_set(a: &Header, b: &Header) -> bool
    ensures { IsTrue result ↔ IsSameSet a.now b.now }
{
    a.disks == b.disks && a.slots == b.slots && a.cluster == b.cluster
}

/// How large the cluster is whose images have this header.
fn config_of(header: &Header) -> Config
    requires { IsHeader header.now }
    ensures disks { result.disks ≡ header.now.disks }
    ensures slots { result.slots ≡ header.now.slots }
{
    match Config::new(header.disks, header.slots as u16) {
        Some(config) => config,
        None => unreachable!(),
    }
}
