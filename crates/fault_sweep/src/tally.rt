ghost use Rattle.std.specs.Prelude.{◌≡◌, ◌+◌, ◌*◌, ◌≤◌, ◌<◌, ◌^◌, true, false, Some, None};
ghost use Rattle.std.specs.Option.{option_or};

/// What the variants of a script came to.
#[derive(Clone, Copy, Debug, PartialEq, Eq)]
pub struct Sweep {
    /// How many there are.
    pub runs: usize,
    /// How many of the recoveries at their ends answered.
    pub recovered: usize,
    /// How many of the variants did not go by what their recoveries learned.
    pub wrong: usize,
    /// The number of the first of these, from 0.
    pub first: Option<usize>,
}

impl Sweep {
    /// No variant yet.
    pub(crate) fn none() -> Sweep
        ensures { result ≡ record { runs = 0; recovered = 0; wrong = 0; first = None } }
    {
        Sweep {
            runs: 0,
            recovered: 0,
            wrong: 0,
            first: None,
        }
    }

    /// One variant more, with so many recoveries at its end.
    pub(crate) fn count(&mut self, recovered: usize, right: bool)
        requires few { self.old.runs < 2 ^ 62 }
        requires each { (self.old.recovered ≤ 2 * self.old.runs) × (recovered ≤ 2) }
        requires wrong { self.old.wrong ≤ self.old.runs }
        ensures runs { self.new.runs ≡ self.old.runs + 1 }
        ensures recovered { self.new.recovered ≡ self.old.recovered + recovered }
        ensures counted { (self.new.recovered ≤ 2 * self.new.runs) × (self.new.wrong ≤ self.new.runs) }
        ensures right { right ≡ true → (self.new.wrong ≡ self.old.wrong) × (self.new.first ≡ self.old.first) }
        ensures wrong { right ≡ false → (self.new.wrong ≡ self.old.wrong + 1) × (self.new.first ≡ option_or self.old.first (Some self.old.runs)) }
    {
        if !right {
            if self.first.is_none() {
                self.first = Some(self.runs);
            }
            self.wrong += 1;
        }
        self.recovered += recovered;
        self.runs += 1;
    }
}
