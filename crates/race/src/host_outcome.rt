ghost use Rattle.std.specs.Prelude.{◌≡◌, ◌⊎◌, ◌<◌, ◌≢◌, ◌↔◌, ℕ, IsTrue, length, slice_index_or};
ghost use Rattle.cluster.specs.declared.fault.HostFault.TheVariants.{NoMemory};

use crate::answer::Answer;
use cluster::HostFault;
use crossbeam_channel::Receiver;
use lock_command::{HostNumber, is_same_reply};
use std::alloc::{AllocError, Global};
use std::sync::Wait;

/// What a host's thread sends.
#[derive(Clone, Copy, Debug, PartialEq, Eq)]
pub(crate) struct HostOutcome {
    pub host: HostNumber,
    pub answer: Answer,
}

/// The outcomes that came, at most so many.
pub(crate) fn outcomes_of<R: Wait>(
    rt: &R,
    alloc: Global,
    queue: &Receiver<HostOutcome>,
    most: usize,
) -> Result<Vec<HostOutcome>, AllocError> {
    let mut came = Vec::with_capacity(alloc, most)?;
    for _ in 0..most {
        if let Ok(outcome) = queue.try_recv(rt) {
            came.push_reserved(outcome);
        }
    }
    Ok(came)
}

/// The answer that a thread gave. If its outcome did not come, memory was refused.
pub(crate) fn answer_of(came: &[HostOutcome], given: HostOutcome) -> Answer
    ensures came { (k : ℕ) (d : HostOutcome) → k < length came.now → slice_index_or came.now k d ≡ given → result ≡ given.answer }
    ensures given { (result ≡ given.answer) ⊎ (result ≡ Answer.Refused NoMemory) }
    ensures missing { ((k : ℕ) (d : HostOutcome) → k < length came.now → slice_index_or came.now k d ≢ given) → result ≡ Answer.Refused NoMemory }
{
    for outcome in came {
        if is_same(outcome, &given) {
            return outcome.answer;
        }
    }
    Answer::Refused(HostFault::NoMemory)
}

fn is_same(a: &HostOutcome, b: &HostOutcome) -> bool
    ensures { IsTrue result ↔ (a.now ≡ b.now) }
{
    a.host == b.host && is_same_answer(&a.answer, &b.answer)
}

fn is_same_answer(a: &Answer, b: &Answer) -> bool
    ensures { IsTrue result ↔ (a.now ≡ b.now) }
{
    match (*a, *b) {
        (
            Answer::Acknowledged { slot, reply },
            Answer::Acknowledged {
                slot: other,
                reply: replied,
            },
        ) => { slot == other && is_same_reply(&reply, &replied) }
        (Answer::Refused(fault), Answer::Refused(other)) => fault == other,
        _ => false,
    }
}
