ghost use Rattle.std.specs.Prelude.{◌≡◌};
ghost use Rattle.c_claims.specs.Claims.{ended_as, of_kind, place_told, told_order};

use crate::failures::status_of;
use crate::marking::is_waited_for;
use session::{Order, Outcome};

/// The last place that C can be told.
const LAST_PLACE: u64 = (1 << 63) - 1;

/// What is to be done next for a claim, as C is told it.
#[repr(C)]
#[derive(Clone, Copy, Drop)]
pub struct DueOrder {
    /// 1 open, 2 open to look, 3 learn, 4 look, 5 tidy, 6 take a sign of life, 7 drop one, 8 submit, 9 rest, 10 yield, 11 done.
    pub kind: u32,
    /// The lock number of the sign of life.
    pub lock: u32,
    /// To rest, how many milliseconds; to yield, how often the command was outrun; to drop a sign of life, 1 where its file is removed, too; to submit, 1
    /// where somebody may wait for what the command does, so that it is marked at once.
    pub amount: u32,
    /// Of what is done: 0 held, 1 not held, 2 given, 3 in doubt, 4 failed.
    pub outcome: u32,
    /// Of what is done: 0, or why it is not held, in doubt or failed.
    pub status: i32,
    pub unused: u32,
    /// Of what was given back: the place of its release in the log. Else -1.
    pub slot: i64,
}

impl DueOrder {
    fn of_kind(kind: u32) -> DueOrder
        ensures { result ≡ of_kind kind }
    {
        DueOrder {
            kind,
            lock: 0,
            amount: 0,
            outcome: 0,
            status: 0,
            unused: 0,
            slot: -1,
        }
    }

    /// The order as C is told it.
    pub fn of(order: &Order) -> DueOrder
        ensures { result ≡ told_order order.now }
    {
        match order {
            Order::Open => DueOrder::of_kind(1),
            Order::OpenToLook => DueOrder::of_kind(2),
            Order::Learn => DueOrder::of_kind(3),
            Order::Look => DueOrder::of_kind(4),
            Order::Tidy => DueOrder::of_kind(5),
            Order::TakeSign(lock) => DueOrder {
                lock: u32::from(lock.get()),
                ..DueOrder::of_kind(6)
            },
            Order::DropSign(sign) => DueOrder {
                lock: u32::from(sign.lock.get()),
                amount: u32::from(sign.removes),
                ..DueOrder::of_kind(7)
            },
            Order::Submit(command) => DueOrder {
                amount: u32::from(is_waited_for(&command.action)),
                ..DueOrder::of_kind(8)
            },
            Order::Rest(milliseconds) => DueOrder {
                amount: u32::from(*milliseconds),
                ..DueOrder::of_kind(9)
            },
            Order::Yield(outrun) => DueOrder {
                amount: u32::from(*outrun),
                ..DueOrder::of_kind(10)
            },
            Order::Done(outcome) => DueOrder::ended(*outcome),
        }
    }

    fn ended(outcome: Outcome) -> DueOrder
        ensures { result ≡ ended_as outcome }
    {
        let end = DueOrder::of_kind(11);
        match outcome {
            Outcome::Held => end,
            Outcome::NotHeld(why) => DueOrder {
                outcome: 1,
                status: status_of(why),
                ..end
            },
            Outcome::Given { slot } => DueOrder {
                outcome: 2,
                slot: place_told(slot),
                ..end
            },
            Outcome::InDoubt(why) => DueOrder {
                outcome: 3,
                status: status_of(why),
                ..end
            },
            Outcome::Failed(why) => DueOrder {
                outcome: 4,
                status: status_of(why),
                ..end
            },
        }
    }
}

/// A place of the log as C is told it. Above the last one that C can be told it is that one.
pub fn place_told(place: u64) -> i64
    ensures { result ≡ place_told place }
{
    place.min(LAST_PLACE) as i64
}
