// A script without the word that tells its kind.
ghost use Rattle.std.specs.Prelude.{◌≡◌, ◌++◌, ◌∷◌, [], IfOk, OnOk, MatchOption, Some, None};
ghost use Rattle.std.specs.Option.{option_copied};
ghost use Rattle.lock_script.specs.Lines.{lines_of};
ghost use Rattle.epoch_script.specs.Scripts.{line_without, lines_without};

use crate::lines::{first_line, is_passed_over};
use std::alloc::{AllocError, Global};

/// How many bytes the word has, with the space before it.
const LONG: usize = 7;

/// The lines of these bytes, of which the first that is not passed over is without the word. None, where it does not end with the word.
pub fn plain_bytes(alloc: Global, bytes: &[u8]) -> Result<Option<Vec<u8>>, AllocError>
    ensures { IfOk result (λ plain. MatchOption plain (lines_without (lines_of bytes.now) ≡ None)
        (λ text. lines_without (lines_of bytes.now) ≡ Some (lines_of text.items))) }
{
    let mut plain = Vec::new(alloc);
    let mut rest = bytes;
    'lines: while !rest.is_empty() {
        let (line, behind) = first_line(rest);
        rest = behind;
        if !is_passed_over(line) {
            let Some(first) = line_without(line) else {
                return Ok(None);
            };
            push_line(&mut plain, first)?;
            plain.extend_from_slice(rest)?;
            return Ok(Some(plain));
        }
        push_line(&mut plain, line)?;
    }
    Ok(None)
}

/// Adds a line at the end.
fn push_line(bytes: &mut Vec<u8>, line: &[u8]) -> Result<(), AllocError>
    ensures { OnOk result (bytes.new.items ≡ bytes.old.items ++ (line.now ++ 10 ∷ [])) }
{
    bytes.extend_from_slice(line)?;
    bytes.push(b'\n').map_err(AllocError::from)?;
    Ok(())
}

/// The line without the word, if it ends with that and begins with something else.
#[tactic(auto, unfolding(crate::specs::Scripts::line_without))]
fn line_without(line: &[u8]) -> Option<&[u8]>
    ensures { option_copied result ≡ line_without line.now }
{
    if line.len() <= LONG {
        return None;
    }
    let (first, last) = line.split_at(line.len() - LONG);
    if last == b" epochs".as_slice() {
        Some(first)
    } else {
        None
    }
}
