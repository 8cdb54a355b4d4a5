/// A boot number, which a disk gives to whoever attaches to it. It is 1 at first, and each crash raises it by 1. So the disk
/// can tell calls of a caller that attached before a crash from calls of one that attached after it.
#[derive(Clone, Copy, Debug, PartialEq, Eq)]
pub struct Boot {
    pub number: u64,
}
