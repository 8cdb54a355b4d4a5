use disk::{Boot, DiskFault};
use torn_block::ROW_LENGTH;

/// The answer to a device call, with rows of this type: those of the cluster's layout, where none is named.
#[derive(Clone, Copy)]
pub enum Heard<'a, R = [u8; ROW_LENGTH]> {
    /// To an attach: the disk's boot number.
    Booted(Boot),
    /// To a write or a sync: it succeeded.
    Done,
    /// To a read: the bytes of the row.
    Told(&'a R),
    /// To any call: it failed.
    Fault(DiskFault),
}
