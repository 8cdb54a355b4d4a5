/// Numbers that look random and follow from a seed: the published generator `splitmix64`.
#[derive(Clone, Copy)]
pub struct Numbers {
    state: u64,
}

impl Numbers {
    /// Each part of a job has numbers of its own.
    pub fn new(seed: u32, part: u32) -> Numbers {
        Numbers {
            state: (u64::from(seed) << 32) | u64::from(part),
        }
    }

    pub fn next(&mut self) -> u64 {
        self.state = self.state.wrapping_add(0x9E37_79B9_7F4A_7C15);
        let mixed = (self.state ^ (self.state >> 30)).wrapping_mul(0xBF58_476D_1CE4_E5B9);
        let mixed = (mixed ^ (mixed >> 27)).wrapping_mul(0x94D0_49BB_1331_11EB);
        mixed ^ (mixed >> 31)
    }
}
