ghost use Rattle.std.specs.Prelude.{◌≡◌, ◌<◌, IfOk, IfSome};
ghost use Rattle.lock_script.specs.Reading.{digit_of, byte_of, given_of, value_of};

use crate::fault_bytes::FaultBytes;
use lock_command::{LOCK_VALUE_LENGTH, ValueBytes};
use std::alloc::{AllocError, Global};

/// The most bytes that a word gives.
const MOST_BYTES: usize = 64;

/// The bytes that the word spells, two digits each, if it spells 1 to 64 of them.
pub fn given_of(alloc: Global, word: &[u8]) -> Result<Option<FaultBytes>, AllocError>
    ensures { IfOk result (λ given. given ≡ given_of word.now) }
{
    if word.len() < 2 || word.len() > 2 * MOST_BYTES {
        return Ok(None);
    }
    let mut bytes = Vec::with_capacity(alloc, word.len() / 2)?;
    let mut rest = word;
    while let [high, low, behind @ ..] = rest {
        let Some(byte) = byte_of(*high, *low) else {
            return Ok(None);
        };
        bytes.push(byte)?;
        rest = behind;
    }
    if rest.is_empty() {
        Ok(Some(FaultBytes::new(bytes)))
    } else {
        Ok(None)
    }
}

/// The value that the word spells, if it has two digits for each of its bytes.
pub fn value_of(word: &[u8]) -> Option<ValueBytes>
    ensures { result ≡ value_of word.now }
{
    if word.len() != 2 * LOCK_VALUE_LENGTH {
        return None;
    }
    let mut bytes = [0; LOCK_VALUE_LENGTH];
    for at in 0..LOCK_VALUE_LENGTH {
        let byte = byte_of(word[2 * at], word[2 * at + 1])?;
        bytes[at] = byte;
    }
    Some(ValueBytes::new(bytes))
}

/// The byte that two hexadecimal digits spell.
#[tactic(auto, unfolding(crate::specs::Reading::byte_of))]
fn byte_of(high: u8, low: u8) -> Option<u8>
    ensures { result ≡ byte_of high low }
{
    let high = digit_of(high)?;
    let low = digit_of(low)?;
    Some(16 * high + low)
}

/// What a hexadecimal digit in lower case stands for.
#[tactic(auto, unfolding(crate::specs::Reading::digit_of))]
fn digit_of(byte: u8) -> Option<u8>
    ensures value { result ≡ digit_of byte }
    ensures range { IfSome result (λ digit. digit < 16) }
{
    match byte {
        b'0'..=b'9' => Some(byte - b'0'),
        b'a'..=b'f' => Some(byte - b'a' + 10),
        _ => None,
    }
}
