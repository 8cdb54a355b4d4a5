ghost use Rattle.std.specs.Prelude.{◌≡◌, IfOk, IfErr, IfSome, IfNone};
ghost use Rattle.std.specs.List.{list_all};
ghost use Rattle.endless_image.specs.Sets.{IsSameSet};
ghost use Rattle.in_place.specs.InPlaceFolders.{AreNoSet, AreOneSet, IsAsInSet, IsNotAsInSet, is_endless};
ghost use Rattle.in_place.specs.InPlaceImages.{becomes};

use crate::in_place_disk::header_in_end;
use disk::ImageFault;
use endless_image::{EndlessHeader, Progress, check_set};
use folders::SetFault;
use torn_block::DISKS;

/// The images of a folder, which are one set.
#[derive(Clone, Copy, Debug, PartialEq, Eq)]
pub struct WholeSet {
    /// The header that disk 0 has in the end.
    pub header: EndlessHeader,
    /// Whether each of them is of a log without an end already.
    pub is_endless: bool,
}

/// The set that these images are. None of them is missing, since it would be left behind.
pub(crate) fn whole_set(
    found: &[Result<Progress, ImageFault>; DISKS as usize],
) -> Result<WholeSet, SetFault>
    ensures set { IfOk result (λ set. AreOneSet found.now set.header) }
    ensures endless { IfOk result (λ set. set.is_endless ≡ list_all is_endless found.now) }
    ensures fault { IfErr result (AreNoSet found.now) }
{
    let header = common_header(found)?;
    Ok(WholeSet {
        header,
        is_endless: found.iter().all(|image| is_endless(image)),
    })
}

/// Whether an image is of a log without an end already, if it is one at all.
fn is_endless(found: &Result<Progress, ImageFault>) -> bool
    ensures { result ≡ is_endless found.now }
{
    match found {
        Ok(Progress::Ending(_) | Progress::Marked(_)) => false,
        Ok(Progress::Endless(_)) | Err(_) => true,
    }
}

/// The header that disk 0 has in the end, if all images are of its set.
fn common_header(
    found: &[Result<Progress, ImageFault>; DISKS as usize],
) -> Result<EndlessHeader, SetFault>
    ensures set { IfOk result (AreOneSet found.now) }
    ensures fault { IfErr result (AreNoSet found.now) }
{
    let first = match found[0] {
        Ok(progress) => progress,
        Err(fault) => return Err(SetFault { disk: 0, fault }),
    };
    let header = header_in_end(&first);
    for disk in 0..found.len() {
        if let Some(fault) = fault_in_set(&header, disk as u8, &found[disk]) {
            return Err(SetFault {
                disk: disk as u8,
                fault,
            });
        }
    }
    Ok(header)
}

/// What is wrong with the image of this number, as one of a set.
fn fault_in_set(
    set: &EndlessHeader,
    disk: u8,
    found: &Result<Progress, ImageFault>,
) -> Option<ImageFault>
    ensures none { IfNone result (IsAsInSet set.now disk found.now) }
    ensures fault { IfSome result (IsNotAsInSet set.now disk found.now) }
{
    match *found {
        Ok(progress) => fault_of_other(set, &progress),
        Err(_) if set.disks <= disk => None,
        Err(fault) => Some(fault),
    }
}

fn fault_of_other(set: &EndlessHeader, progress: &Progress) -> Option<ImageFault>
    ensures none { IfNone result (IsSameSet (becomes progress.now) set.now) }
    ensures fault { IfSome result (λ fault. (fault ≡ ImageFault.WrongHeader) × ¬ IsSameSet (becomes progress.now) set.now) }
{
    if check_set(&header_in_end(progress), set).is_ok() {
        None
    } else {
        Some(ImageFault::WrongHeader)
    }
}
