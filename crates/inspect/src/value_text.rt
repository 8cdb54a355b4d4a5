ghost use Rattle.std.specs.Prelude.{◌≡◌, OnOk};
ghost use Rattle.std.specs.Io.KnownBytes.{Appends};
ghost use Rattle.hex.specs.Hex.{encode_lower};
ghost use Rattle.inspect.specs.Text.{is_zeros, value_text, value_words};

use lock_command::LOCK_VALUE_LENGTH;
use lock_table::LockValue;
use std::io;
use std::io::Write;

/// Writes a space and the value of a name. Writes nothing if the value is valid zeros.
pub fn value_words<W: Write>(value: &LockValue, out: &mut W) -> io::Result<()>
    ensures { OnOk result (Appends (W.contents out.old) (W.contents out.new) (value_words value.now)) }
{
    if is_zeros(value) {
        return Ok(());
    }
    out.write_all(b" ")?;
    value_text(value, out)
}

fn is_zeros(value: &LockValue) -> bool
    ensures { result ≡ is_zeros value.now }
{
    value.valid && value.bytes == [0; LOCK_VALUE_LENGTH]
}

/// Writes the digits of a value, and a word if it is not valid.
fn value_text<W: Write>(value: &LockValue, out: &mut W) -> io::Result<()>
    ensures { OnOk result (Appends (W.contents out.old) (W.contents out.new) (value_text value.now)) }
{
    out.write_all(&value_digits(value))?;
    if value.valid {
        return Ok(());
    }
    out.write_all(b" invalid")
}

// How many digits a value has.
const VALUE_DIGITS: usize = 2 * LOCK_VALUE_LENGTH;

/// The hexadecimal digits of a value, in lower case.
pub fn value_digits(value: &LockValue) -> [u8; VALUE_DIGITS]
    ensures { result ≡ encode_lower value.now.bytes }
{
    let bytes = value.bytes;
    let mut digits = [0; VALUE_DIGITS];
    let _ = hex::encode_to_slice(bytes.as_slice(), &mut digits);
    digits
}
