ghost use Rattle.std.specs.Prelude.{◌≡◌, ◌≤◌, ◌*◌, All, length};
ghost use Rattle.lock_script.specs.declared.events.TheConstants.{MOST_EVENTS};
ghost use Rattle.epoch_sweep.specs.Counting.{counted, with_end};

/// How a variant ended.
#[derive(Clone, Copy, Debug, PartialEq, Eq)]
pub struct End {
    /// How many of the two recoveries at its end answered.
    pub recovered: usize,
    /// Whether what they tell goes by what was said before.
    pub right: bool,
}

/// What the variants of a script came to.
#[derive(Clone, Copy, Debug, PartialEq, Eq)]
pub struct Sweep {
    /// How many there are.
    pub runs: usize,
    /// How many of the recoveries at their ends answered.
    pub recovered: usize,
    /// How many of the variants did not go by what their recoveries told.
    pub wrong: usize,
    /// The number of the first of these, from 0.
    pub first: Option<usize>,
}

/// Counts how the variants ended.
pub fn count(ends: &[End]) -> Sweep
    requires few { length ends.now ≤ 7 * MOST_EVENTS }
    requires each { All (λ end. end.recovered ≤ 2) ends.now }
    ensures { result ≡ counted ends.now }
{
    let mut sweep = Sweep {
        runs: 0,
        recovered: 0,
        wrong: 0,
        first: None,
    };
    for end in ends {
        sweep = with_end(sweep, end);
    }
    sweep
}

/// Counts one variant more.
fn with_end(sweep: Sweep, end: &End) -> Sweep
    requires few { sweep.runs ≤ 7 * MOST_EVENTS }
    requires each { (sweep.recovered ≤ 2 * sweep.runs) × (end.now.recovered ≤ 2) }
    requires wrong { sweep.wrong ≤ sweep.runs }
    ensures { result ≡ with_end sweep end.now }
{
    if end.right {
        Sweep {
            runs: sweep.runs + 1,
            recovered: sweep.recovered + end.recovered,
            wrong: sweep.wrong,
            first: sweep.first,
        }
    } else {
        Sweep {
            runs: sweep.runs + 1,
            recovered: sweep.recovered + end.recovered,
            wrong: sweep.wrong + 1,
            first: sweep.first.or(Some(sweep.runs)),
        }
    }
}
