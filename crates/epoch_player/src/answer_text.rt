use dlm_words::{RefusalText, ReplyText};
use epoch_host::EpochAnswer;
use std::fmt;

/// What a host over all epochs answered, as it is printed after the host's number.
#[derive(Clone, Copy)]
pub struct AnswerText(pub EpochAnswer);

impl fmt::Display for AnswerText {
    ghost use Rattle.std.specs.Prelude.{Some};
    ghost use Rattle.epoch_player.specs.Text.{answer_text};

    ghost output = { λ a. Some (answer_text a.0) };

    fn fmt<W: fmt::Write>(&self, f: &mut fmt::Formatter<W>) -> fmt::Result {
        match self.0 {
            EpochAnswer::Ack { place, reply } => {
                let reply = ReplyText(reply);
                write!(f, "ack {place} {reply}")
            }
            EpochAnswer::Recovered { length } => write!(f, "recovered {length}"),
            EpochAnswer::Looked { length } => write!(f, "looked {length}"),
            EpochAnswer::Beaten { host } => write!(f, "beaten {host}"),
            EpochAnswer::Marked { count } => write!(f, "marked {count}"),
            EpochAnswer::Refused(refusal) => {
                let refusal = RefusalText(refusal);
                write!(f, "refused {refusal}")
            }
        }
    }
}
