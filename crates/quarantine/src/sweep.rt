// The revocation sweep, the host's calls to it, and what they answer.
ghost use Rattle.std.specs.Prelude.{◌≡◌, ◌+◌, nat_le};
ghost use Rattle.quarantine.specs.declared.sweep.Sweep.TheVariants.{Open};

// Idle, or open with the number of granules passed.
// Kept as it is: an Option of the number would be no plainer, since it names neither state.
#[derive(Clone, Copy, Debug, PartialEq, Eq)]
pub enum Sweep {
    Idle,
    Open { passed: usize },
}

#[derive(Clone, Copy, Debug, PartialEq, Eq)]
pub enum HostCall {
    Open,
    Step { granules: usize },
    Shut,
}

// Opened and Shut give the number of painted runs, Passing and Ending the granule that the step begins at.
// After Ending the caller passes the rest, wipes and releases the painted runs, and calls `finish`.
#[derive(Clone, Copy, Debug, PartialEq, Eq)]
pub enum Turn {
    Opened { runs: usize },
    Passing { from: usize, left: usize },
    Ending { from: usize },
    Shut { runs: usize },
}

impl Sweep {
    // An open sweep that has passed no granule.
    pub(crate) fn begun() -> Sweep
        ensures { result ≡ Open 0 }
    {
        Sweep::Open { passed: 0 }
    }
}

// Whether a step of k granules passes the last of `granules`.
pub(crate) fn reaches_end(passed: usize, k: usize, granules: usize) -> bool
    ensures { result ≡ nat_le granules (passed + k) }
{
    passed >= granules || k >= granules - passed
}
