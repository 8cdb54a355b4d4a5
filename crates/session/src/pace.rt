ghost use Rattle.std.specs.Prelude.{◌≡◌, ◌≢◌, ◌+◌, ◌-◌, ◌*◌, ◌%◌, ◌^◌, ◌<◌, ◌≤◌, ◌↔◌, IfSome, IsTrue, None, min};
ghost use Rattle.session.specs.Beginnings.{first_pace};

use crate::outcome::Failure;

/// How fast a wait looks, and how long it has waited in vain.
#[derive(Clone, Copy, Debug, PartialEq, Eq)]
pub struct Pace {
    /// The next pause, in milliseconds.
    pub pause: u16,
    /// The longest pause between two looks, in milliseconds.
    pub interval: u16,
    /// How many places were learned when there was news last.
    pub learned: u64,
    /// For so many milliseconds there was no news.
    pub quiet: u32,
    /// For so many milliseconds the disks were away.
    pub away: u32,
    /// How often the command that is submitted was outrun.
    pub outrun: u8,
    /// What it is waited for that passes.
    pub failure: Option<Failure>,
}

/// The longest pause while the disks are away, in milliseconds.
const LONG_PAUSE: u16 = 200;

/// So long the disks may be away while a lock waits, in milliseconds.
const PATIENCE: u32 = 60_000;

/// After so long without news a wait learns all that there is, in milliseconds; some waits after twice as long.
const QUIET: u32 = 2_000;

impl Pace {
    /// A wait that begins.
    pub fn new(interval: u16) -> Pace
        ensures { result ≡ first_pace interval }
    {
        Pace {
            pause: 1,
            interval,
            learned: 0,
            quiet: 0,
            away: 0,
            outrun: 0,
            failure: None,
        }
    }

    /// The pause before the next look: 1 ms, then twice as long each time.
    pub fn next_pause(&mut self) -> u16
        ensures pause { result ≡ self.old.pause }
        ensures within { self.new.pause ≤ self.old.interval }
        ensures doubles { 2 * self.old.pause + 1 < self.old.interval → self.new.pause ≡ 2 * self.old.pause }
        ensures longest { self.old.interval ≤ 2 * self.old.pause + 1 → self.new.pause ≡ self.old.interval }
        ensures quiet { self.new.quiet ≡ min (2 ^ 32 - 1) (self.old.quiet + self.old.pause) }
        ensures rest { self.new ≡ record self.old { quiet = self.new.quiet; pause = self.new.pause } }
    {
        let pause = self.pause;
        self.quiet = self.quiet.saturating_add(u32::from(pause));
        self.pause = if pause < self.interval / 2 {
            2 * pause
        } else {
            self.interval
        };
        pause
    }

    /// The pause while the disks are away, unless they have been away for too long.
    pub fn pause_away(&mut self) -> Option<u16>
        ensures pause { IfSome result (λ pause. pause ≡ LONG_PAUSE) }
        ensures away { IfSome result (λ pause. self.new ≡ record self.old { away = self.old.away + pause }) }
        ensures patience { result ≡ None → PATIENCE ≤ self.old.away }
        ensures same { result ≡ None → self.new ≡ self.old }
    {
        if self.away >= PATIENCE {
            return None;
        }
        self.away += u32::from(LONG_PAUSE);
        Some(LONG_PAUSE)
    }

    /// So many places were learned by now.
    pub fn hear(&mut self, learned: u64)
        ensures away { self.new.away ≡ 0 }
        ensures learned { self.new.learned ≡ learned }
        ensures news { self.old.learned ≢ learned → self.new.quiet ≡ 0 }
        ensures quiet { self.old.learned ≡ learned → self.new.quiet ≡ self.old.quiet }
        ensures rest { self.new ≡ record self.old { away = self.new.away; learned = self.new.learned; quiet = self.new.quiet } }
    {
        self.away = 0;
        if learned != self.learned {
            self.learned = learned;
            self.quiet = 0;
        }
    }

    /// Whether there was no news for so long that a command without a mark may stand before all looks. `spread` keeps waits apart.
    pub fn is_quiet(&self, spread: u16) -> bool
        ensures { IsTrue result ↔ (QUIET + spread % QUIET ≤ self.now.quiet) }
    {
        self.quiet >= QUIET + u32::from(spread) % QUIET
    }

    /// All there is will be learned now.
    pub fn wake(&mut self)
        ensures { self.new ≡ record self.old { quiet = 0 } }
    {
        self.quiet = 0;
    }

    /// A command was outrun.
    pub fn fall_back(&mut self)
        ensures { self.new ≡ record self.old { outrun = min 255 (self.old.outrun + 1) } }
    {
        self.outrun = self.outrun.saturating_add(1);
    }
}
