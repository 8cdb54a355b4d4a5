ghost use Rattle.std.specs.Prelude.{◌≡◌};
ghost use Rattle.folders.specs.ImageFaults.{image_fault_number, image_fault_name};

use disk::ImageFault;

/// The number that is printed of an image that is not used.
pub fn image_fault_number(fault: ImageFault) -> u8
    ensures { result ≡ image_fault_number fault }
{
    match fault {
        ImageFault::NotFormatted => 24,
        ImageFault::WrongHeader => 25,
        ImageFault::Unreadable => 26,
        ImageFault::OldLayout => 32,
    }
}

/// The name that is printed after the number.
pub fn image_fault_name(fault: ImageFault) -> &'static str
    ensures { result.now ≡ image_fault_name fault }
{
    match fault {
        ImageFault::NotFormatted => "NotFormatted",
        ImageFault::WrongHeader => "WrongHeader",
        ImageFault::Unreadable => "Unreadable",
        ImageFault::OldLayout => "OldLayout",
    }
}
