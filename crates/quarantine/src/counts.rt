// How many runs are painted and how many are held, and what each event makes of the two numbers.
ghost use Rattle.std.specs.Prelude.{◌≡◌, ◌+◌, ◌-◌, ◌<◌, ◌≤◌};
ghost use Rattle.quarantine.specs.Runs.{most_runs};

// The painted runs are among those held.
// Kept as they are: the clauses `painted` of three methods that answer counts with none painted; a type of such counts would
// be no plainer, since the quarantine holds counts of both kinds.
#[derive(Clone, Copy, Debug, PartialEq, Eq)]
pub(crate) struct Counts {
    pub(crate) painted: usize,
    pub(crate) held: usize,
    ghost order: { painted ≤ held },
    ghost few: { held ≤ most_runs },
}

impl Counts {
    // So many runs wait, and none is painted.
    pub(crate) fn waiting(held: usize) -> Counts
        requires { held ≤ most_runs }
        ensures painted { result.painted ≡ 0 }
        ensures held { result.held ≡ held }
    {
        Counts { painted: 0, held }
    }

    // One more run waits.
    pub(crate) fn join(self) -> Counts
        requires { self.held < most_runs }
        ensures painted { result.painted ≡ self.painted }
        ensures held { result.held ≡ self.held + 1 }
    {
        Counts {
            painted: self.painted,
            held: self.held + 1,
        }
    }

    // All runs are painted.
    pub(crate) fn paint(self) -> Counts
        ensures painted { result.painted ≡ self.held }
        ensures held { result.held ≡ self.held }
    {
        Counts {
            painted: self.held,
            held: self.held,
        }
    }

    // All runs wait.
    pub(crate) fn shut(self) -> Counts
        ensures painted { result.painted ≡ 0 }
        ensures held { result.held ≡ self.held }
    {
        Counts::waiting(self.held)
    }

    // The painted runs are gone.
    pub(crate) fn finish(self) -> Counts
        ensures painted { result.painted ≡ 0 }
        ensures held { result.held ≡ self.held - self.painted }
    {
        Counts::waiting(self.held - self.painted)
    }
}
