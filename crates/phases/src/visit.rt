use disk::Boot;
use torn_block::Block128;

/// What is kept of a disk: whether it is left, the boot number it was attached under, and the own block as it was read last.
#[derive(Clone, Copy)]
pub struct Visit {
    pub left: bool,
    pub boot: Boot,
    pub block: Block128,
}

/// What is kept of a disk that has answered nothing.
pub const UNSEEN: Visit = Visit {
    left: true,
    boot: Boot { number: 0 },
    block: Block128::BLANK,
};
