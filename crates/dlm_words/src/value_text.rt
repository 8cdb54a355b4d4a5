ghost use Rattle.std.specs.Prelude.{◌≡◌};
ghost use Rattle.dlm_words.specs.Text.{shown_value};

use inspect::value_digits;
use lock_table::LockValue;
use std::fmt;

/// The value of a name: its digits, and a word where it is not valid.
#[derive(Clone, Copy)]
pub struct ValueText(pub LockValue);

impl fmt::Display for ValueText {
    ghost use Rattle.std.specs.Prelude.{Some};
    ghost use Rattle.inspect.specs.Text.{value_text};

    ghost output = { λ v. Some (value_text v.0) };

    fn fmt<W: fmt::Write>(&self, f: &mut fmt::Formatter<W>) -> fmt::Result {
        let digits = value_digits(&self.0);
        let Ok(digits) = str::from_utf8(&digits) else {
            return Err(fmt::Error);
        };
        if self.0.valid {
            f.write_str(digits)
        } else {
            write!(f, "{digits} invalid")
        }
    }
}

/// The value of a reply, unless it is zeros that are valid.
pub fn shown_value(value: Option<LockValue>) -> Option<LockValue>
    ensures { result ≡ shown_value value }
{
    match value {
        Some(value) if value != LockValue::ZEROS => Some(value),
        _ => None,
    }
}
