//! What a claim hears.
ghost use Rattle.c_claims.specs.Hearing.{HearsAlone, MovesBy, MovesUnread};

use crate::event::Event;
use crate::failures::failure_of;
use session::{Claim, Failure, Learned};

/// Hears what came of the order, by what a host has learned.
pub fn hear_by(claim: &mut Claim, event: Event, learned: &Learned<'_>)
    ensures { MovesBy event learned.now claim.old claim.new }
{
    match event {
        Event::Opened => claim.opened(learned),
        Event::Learned => claim.learned(learned),
        Event::Replied(reply) => claim.replied(&reply, learned),
        Event::Refused(failure) => claim.refused(failure, learned),
        Event::Signed => claim.signed(learned),
        Event::SignHeld => claim.sign_is_held(learned),
        Event::SignDropped => claim.dropped(learned),
        Event::Unknown => claim.closed(Failure::Broken),
    }
}

/// Hears what came of the order, of a host whose lock table cannot be read, for this reason.
pub fn hear_unread(claim: &mut Claim, event: Event, unread: Failure)
    ensures { MovesUnread event unread claim.old claim.new }
{
    match event {
        Event::Opened => claim.opened_unread(),
        Event::Learned | Event::Replied(_) => claim.refused_unread(unread),
        Event::Refused(failure) => claim.refused_unread(failure),
        Event::Signed | Event::SignHeld => claim.closed(unread),
        Event::SignDropped => claim.dropped_unread(unread),
        Event::Unknown => claim.closed(Failure::Broken),
    }
}

/// Hears what came of the order, where no host is open: 1 the folder could not be opened, for this status, 2 the pause is over, 3 the sign of life cannot be
/// made or locked.
pub fn hear_alone(claim: &mut Claim, event: u32, status: i32)
    ensures { HearsAlone event status claim.old claim.new }
{
    match event {
        2 => claim.rested(),
        3 => claim.sign_failed(),
        _ => claim.closed(failure_of(status)),
    }
}
