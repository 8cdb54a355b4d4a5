/// What an attempt begins with.
#[derive(Clone, Copy)]
pub struct Setup<V> {
    pub host: u8,
    pub slot: u16,
    pub disks: u8,
    pub floor: u64,
    pub input: Option<V>,
}
