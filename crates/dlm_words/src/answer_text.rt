use crate::reply_text::ReplyText;
use host::{HostAnswer, Refusal};
use std::fmt;

/// What a host answered, as it is printed after the host's number.
#[derive(Clone, Copy)]
pub struct AnswerText(pub HostAnswer);

impl fmt::Display for AnswerText {
    ghost use Rattle.std.specs.Prelude.{Some};
    ghost use Rattle.dlm_words.specs.Text.{answer_text};

    ghost output = { λ a. Some (answer_text a.0) };

    fn fmt<W: fmt::Write>(&self, f: &mut fmt::Formatter<W>) -> fmt::Result {
        match self.0 {
            HostAnswer::Ack { slot, reply } => {
                let reply = ReplyText(reply);
                write!(f, "ack {slot} {reply}")
            }
            HostAnswer::Recovered { length } => write!(f, "recovered {length}"),
            HostAnswer::Looked { length } => write!(f, "looked {length}"),
            HostAnswer::Beaten { host } => write!(f, "beaten {host}"),
            HostAnswer::Marked { count } => write!(f, "marked {count}"),
            HostAnswer::Refused(refusal) => {
                let refusal = RefusalText(refusal);
                write!(f, "refused {refusal}")
            }
        }
    }
}

/// A refusal of an operation, as it is printed.
#[derive(Clone, Copy, Debug, PartialEq, Eq)]
pub struct RefusalText(pub Refusal);

impl fmt::Display for RefusalText {
    ghost use Rattle.std.specs.Prelude.{Some};
    ghost use Rattle.dlm_words.specs.Text.{refusal_text};

    ghost output = { λ r. Some (refusal_text r.0) };

    fn fmt<W: fmt::Write>(&self, f: &mut fmt::Formatter<W>) -> fmt::Result {
        let number = self.0.number();
        let name = self.0.name();
        write!(f, "{number} {name}")
    }
}
