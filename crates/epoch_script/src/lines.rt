// The lines of a script, as `lock_script` cuts them.
ghost use Rattle.std.specs.Prelude.{◌≡◌, ◌==◌, ◌<◌, ◌∷◌, length, position};
ghost use Rattle.std.specs.List.{before_first, after_first};
ghost use Rattle.lock_script.specs.Lines.{lines_of, is_passed_over};
ghost use Rattle.epoch_script.specs.Scripts.{HasNoEnd, IsSecondSaid};

/// Cuts the first line off: its bytes without the line end, and the bytes behind it.
pub fn first_line(bytes: &[u8]) -> (&[u8], &[u8])
    requires { 0 < length bytes.now }
    ensures lines { lines_of bytes.now ≡ result.0.now ∷ lines_of result.1.now }
    ensures shorter { length result.1.now < length bytes.now }
    ensures whole { HasNoEnd result.0.now }
{
    cut(bytes)
}

/// The bytes before the first line end, and those after it.
fn cut(bytes: &[u8]) -> (&[u8], &[u8])
    requires { 0 < length bytes.now }
    ensures line { result.0.now ≡ before_first (λ byte. byte == 10) bytes.now }
    ensures behind { result.1.now ≡ after_first (λ byte. byte == 10) bytes.now }
    ensures shorter { length result.1.now < length bytes.now }
{
    match end_of(bytes) {
        Some(end) => (&bytes[..end], &bytes[end + 1..]),
        None => (bytes, &[]),
    }
}

/// The index of the first byte that ends a line.
fn end_of(bytes: &[u8]) -> Option<usize>
    ensures { result ≡ position (λ byte. byte == 10) bytes.now }
{
    bytes.iter().position(|byte| *byte == b'\n')
}

/// Whether the line is empty or a comment.
pub fn is_passed_over(line: &[u8]) -> bool
    ensures { result ≡ is_passed_over line.now }
{
    matches!(line, [] | [b'#', ..])
}

/// The number, from 1, of the second line that is not passed over. How many lines there are, where there is none.
pub fn second_said(bytes: &[u8]) -> usize
    ensures { IsSecondSaid (lines_of bytes.now) result }
{
    let mut number = 0;
    let mut one_said = false;
    let mut rest = bytes;
    'lines: while !rest.is_empty() {
        let (line, behind) = first_line(rest);
        number += 1;
        rest = behind;
        if is_passed_over(line) {
            continue;
        }
        if one_said {
            return number;
        }
        one_said = true;
    }
    number
}
