ghost use Rattle.std.specs.Prelude.{◌≡◌};
ghost use Rattle.dlm_words.specs.Text.{held_mode, wanted_mode};

use crate::mode_text::ModeText;
use crate::value_text::{ValueText, shown_value};
use lock_table::{Answer, LockState, Reply};
use std::fmt;

/// A reply of the lock table, as it is printed.
#[derive(Clone, Copy)]
pub struct ReplyText(pub Reply);

impl fmt::Display for ReplyText {
    ghost use Rattle.std.specs.Prelude.{Some};
    ghost use Rattle.dlm_words.specs.Text.{reply_text};

    ghost output = { λ r. Some (reply_text r.0) };

    fn fmt<W: fmt::Write>(&self, f: &mut fmt::Formatter<W>) -> fmt::Result {
        match (self.0.answer, shown_value(self.0.value)) {
            (Answer::Granted, None) => f.write_str("Granted"),
            (Answer::Granted, Some(value)) => write!(f, "Granted({})", ValueText(value)),
            (Answer::Queued, _) => f.write_str("Queued"),
            (Answer::Released, _) => f.write_str("Released"),
            (Answer::Cancelled, _) => f.write_str("Cancelled"),
            (Answer::Purged(count), _) => write!(f, "Purged({count})"),
            (Answer::Forgotten, _) => f.write_str("Forgotten"),
            (Answer::State(state), None) => {
                let (held, wanted) = modes_of(state);
                write!(f, "State(held={held}, wanted={wanted})")
            }
            (Answer::State(state), Some(value)) => {
                let (held, wanted) = modes_of(state);
                let value = ValueText(value);
                write!(f, "State(held={held}, wanted={wanted}, value={value})")
            }
            (Answer::Refused(refusal), _) => {
                let number = refusal.number();
                let name = refusal.name();
                write!(f, "{number} {name}")
            }
        }
    }
}

/// The held mode and the wanted one.
fn modes_of(state: LockState) -> (ModeText, ModeText)
    ensures held { result.0.0 ≡ held_mode state }
    ensures wanted { result.1.0 ≡ wanted_mode state }
{
    match state {
        LockState::Granted(held) => (ModeText(Some(held)), ModeText(None)),
        LockState::Converting { held, wanted } => (ModeText(Some(held)), ModeText(Some(wanted))),
        LockState::Waiting(wanted) => (ModeText(None), ModeText(Some(wanted))),
    }
}
