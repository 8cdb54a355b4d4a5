use lock_command::Mode;
use std::fmt;

/// A mode as it is printed, `-` where there is none.
#[derive(Clone, Copy)]
pub struct ModeText(pub Option<Mode>);

impl fmt::Display for ModeText {
    ghost use Rattle.std.specs.Prelude.{Some};
    ghost use Rattle.dlm_words.specs.Text.{mode_text};

    ghost output = { λ m. Some (mode_text m.0) };

    fn fmt<W: fmt::Write>(&self, f: &mut fmt::Formatter<W>) -> fmt::Result {
        f.write_str(match self.0 {
            None => "-",
            Some(Mode::Null) => "NL",
            Some(Mode::ConcurrentRead) => "CR",
            Some(Mode::ConcurrentWrite) => "CW",
            Some(Mode::ProtectedRead) => "PR",
            Some(Mode::ProtectedWrite) => "PW",
            Some(Mode::Exclusive) => "EX",
        })
    }
}
