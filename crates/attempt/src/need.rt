use disk::Boot;

/// A device call that is due, and its disk.
#[derive(Drop)]
pub struct Need<'a> {
    pub disk: u8,
    pub call: DeviceCall<'a>,
}

/// A call on a disk. Places are in bytes from the start of the image.
#[derive(Drop)]
pub enum DeviceCall<'a> {
    Attach,
    Sync {
        boot: Boot,
    },
    /// A read of a slot's row, all its bytes, from `at` on.
    Read {
        boot: Boot,
        at: u64,
    },
    Write {
        boot: Boot,
        at: u64,
        bytes: &'a [u8],
    },
}
