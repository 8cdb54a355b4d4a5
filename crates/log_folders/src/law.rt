// What a format leaves, on a disk whose bytes contracts see. This function does nothing.
ghost use Rattle.log_folders.specs.Beginnings.{EndlessHoldsNothing, FinishedIsNew, LaidOutIsNew, OpenStays};

use disk::Disk;

/// A disk that makes a step of the disk model with each call holds a new image once it was laid out, and a crash leaves that image.
pub fn laid_out_images_are_new<D: Disk>()
    ensures new { LaidOutIsNew D.gives D.state }
    ensures nothing { EndlessHoldsNothing }
    // A format that is finished later comes to the same.
    ensures finished { FinishedIsNew D.gives D.state }
    ensures stays { OpenStays D.gives D.state }
{}
