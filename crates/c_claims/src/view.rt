ghost use Rattle.c_claims.specs.Claims.{ShowsClaim};

use crate::due_order::place_told;
use session::{Claim, Standing};

/// What C is shown of a claim.
#[repr(C)]
#[derive(Clone, Copy, Drop)]
pub struct ClaimView {
    /// The last request of the session.
    pub request: u64,
    pub lock: u32,
    /// 0 nothing was asked for, 1 asked, 2 waiting, 3 held, 4 left by a former run, 5 to be released.
    pub standing: u32,
    /// At which place of the log the command stands that asked for the lock, -1 where that is not known.
    pub slot: i64,
}

impl ClaimView {
    /// The claim as C is shown it.
    pub fn of(claim: &Claim) -> ClaimView
        ensures { ShowsClaim result claim.now }
    {
        ClaimView {
            request: claim.request,
            lock: u32::from(claim.lock.get()),
            standing: match claim.standing {
                Standing::Unasked => 0,
                Standing::Asked => 1,
                Standing::Waiting => 2,
                Standing::Held => 3,
                Standing::Left => 4,
                Standing::Leaving => 5,
            },
            slot: match claim.slot {
                Some(place) => place_told(place),
                None => -1,
            },
        }
    }
}
