ghost use Rattle.std.specs.Prelude.{◌≡◌, ◌==◌, ◌<◌, ◌∷◌, length};
ghost use Rattle.std.specs.List.{before_first, after_first};
ghost use Rattle.lock_script.specs.Lines.{lines_of, is_passed_over};

use crate::bytes::place_of;

/// Cuts the first line off: its bytes without the line end, and the bytes behind it.
pub fn first_line(bytes: &[u8]) -> (&[u8], &[u8])
    requires { 0 < length bytes.now }
    ensures lines { lines_of bytes.now ≡ result.0.now ∷ lines_of result.1.now }
    ensures shorter { length result.1.now < length bytes.now }
{
    cut(bytes)
}

/// The bytes before the first line end, and those after it.
fn cut(bytes: &[u8]) -> (&[u8], &[u8])
    requires { 0 < length bytes.now }
    ensures line { result.0.now ≡ before_first (λ byte. byte == 10) bytes.now }
    ensures behind { result.1.now ≡ after_first (λ byte. byte == 10) bytes.now }
    ensures shorter { length result.1.now < length bytes.now }
{
    match place_of(bytes, b'\n') {
        Some(end) => (&bytes[..end], &bytes[end + 1..]),
        None => (bytes, &[]),
    }
}

/// Whether the line is empty or a comment.
pub fn is_passed_over(line: &[u8]) -> bool
    ensures { result ≡ is_passed_over line.now }
{
    matches!(line, [] | [b'#', ..])
}
