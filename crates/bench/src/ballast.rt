use std::alloc::{AllocError, Global};

/// The most blocks of each size.
const BLOCKS: usize = 1024;

/// The bytes of a large block.
const LARGE: usize = 1 << 20;

/// The bytes of a small block: with what an allocator keeps beside them, a page.
const SMALL: usize = 4032;

/// Memory that is held, so that others are refused it.
#[derive(Drop)]
pub struct Ballast {
    blocks: Vec<Vec<u8>>,
}

impl Ballast {
    /// None.
    pub fn new(alloc: Global) -> Ballast {
        Ballast {
            blocks: Vec::new(alloc),
        }
    }

    /// Takes all memory that the process may have, but for so many pages. It is never written, so the machine has it still.
    pub fn take(&mut self, alloc: Global, spare: usize) -> Result<(), AllocError> {
        self.blocks.reserve(2 * BLOCKS)?;
        hold(alloc, &mut self.blocks, LARGE);
        hold(alloc, &mut self.blocks, SMALL);
        let held = self.blocks.len().saturating_sub(spare);
        self.blocks.truncate(held);
        Ok(())
    }

    /// Gives all of it back.
    pub fn let_go(&mut self) {
        self.blocks.clear();
    }
}

/// Adds blocks of this size until one is refused.
fn hold(alloc: Global, blocks: &mut Vec<Vec<u8>>, size: usize) {
    for _ in 0..BLOCKS {
        let Ok(block) = Vec::with_capacity(alloc, size) else {
            return;
        };
        if blocks.push(block).is_err() {
            return;
        }
    }
}
