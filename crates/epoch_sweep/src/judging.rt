ghost use Rattle.std.specs.Prelude.{◌↔◌, IsTrue, Some};
ghost use Rattle.epoch_sweep.specs.Judging.{Holds, HoldAll, AllHeld, IsRight, ShowOne};

use crate::ending::Recovery;
use epoch_host::EpochAnswer;
use epoch_player::Said;
use fault_sweep::is_same_picture;

/// Whether what two recoveries tell goes by what was said before them. Each that answered tells a place behind all that was acknowledged. Where they tell one
/// place they show one lock table.
pub fn is_right(told: &[Said], first: &Option<Recovery>, last: &Option<Recovery>) -> bool
    ensures { IsTrue result ↔ IsRight told.now first.now last.now }
{
    holds_all(told, first) && holds_all(told, last) && show_one(first, last)
}

/// Whether a recovery that answered has all that was acknowledged.
fn holds_all(told: &[Said], recovery: &Option<Recovery>) -> bool
    ensures { IsTrue result ↔ HoldAll told.now recovery.now }
{
    match recovery {
        Some(recovery) => all_held(told, recovery.upto),
        None => true,
    }
}

/// Whether all that was acknowledged is below this place.
fn all_held(told: &[Said], upto: u64) -> bool
    ensures { IsTrue result ↔ AllHeld upto told.now }
{
    for said in told {
        if !holds(said, upto) {
            return false;
        }
    }
    true
}

/// Whether this is no acknowledgement, or one below this place.
fn holds(said: &Said, upto: u64) -> bool
    ensures { IsTrue result ↔ Holds upto said.now }
{
    match said.answer {
        EpochAnswer::Ack { place, .. } => place < upto,
        EpochAnswer::Recovered { .. }
        | EpochAnswer::Looked { .. }
        | EpochAnswer::Beaten { .. }
        | EpochAnswer::Marked { .. }
        | EpochAnswer::Refused(_) => true,
    }
}

/// Whether two recoveries show one table, where both answered and tell one place.
fn show_one(first: &Option<Recovery>, last: &Option<Recovery>) -> bool
    ensures { IsTrue result ↔ ShowOne first.now last.now }
{
    match first {
        Some(first) => shows_as(first, last),
        None => true,
    }
}

fn shows_as(first: &Recovery, last: &Option<Recovery>) -> bool
    ensures { IsTrue result ↔ ShowOne (Some first.now) last.now }
{
    match last {
        Some(last) => show_same(first, last),
        None => true,
    }
}

fn show_same(first: &Recovery, last: &Recovery) -> bool
    ensures { IsTrue result ↔ ShowOne (Some first.now) (Some last.now) }
{
    first.upto != last.upto || is_same_picture(&first.table, &last.table)
}
