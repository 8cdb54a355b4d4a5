use crate::failure::Failure;
use crate::numbers::Numbers;
use lock_command::LockName;
use std::alloc::{AllocError, Global};

/// What names look like; the last two letters tell them apart.
const SPELLINGS: [&[u8]; 4] = [b"db??", b"volume/??", b"accounts/row??", b"inode:00004c??"];

/// How many names there are.
const NAMES: u64 = 26 * 26;

/// The name with this number. Any `NAMES` numbers in a row have a name each.
pub fn name_of(number: u64) -> Option<LockName> {
    let spelling = SPELLINGS[(number % 4) as usize];
    let mut bytes = [0; 14];
    let length = spelling.len().min(14);
    bytes[..length].copy_from_slice(&spelling[..length]);
    bytes[length.checked_sub(2)?] = b'a' + (number / 26 % 26) as u8;
    bytes[length.checked_sub(1)?] = b'a' + (number % 26) as u8;
    LockName::new(&bytes[..length])
}

/// So many names that differ, in any order.
pub fn drawn_names(
    alloc: Global,
    count: u64,
    numbers: &mut Numbers,
) -> Result<Vec<LockName>, Failure> {
    let first = numbers.next() % NAMES;
    let mut names = Vec::new(alloc);
    for at in 0..count {
        let Some(name) = name_of(first.wrapping_add(at)) else {
            return Err(Failure::Wrong);
        };
        names.push(name).map_err(AllocError::from)?;
    }
    shuffle(names.as_mut_slice(), numbers);
    Ok(names)
}

fn shuffle(names: &mut [LockName], numbers: &mut Numbers) {
    for at in 1..names.len() {
        let other = numbers.next() as usize % (at + 1);
        names.swap(at, other);
    }
}
