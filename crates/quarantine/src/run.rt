// Runs of granules.
ghost use Rattle.std.specs.Prelude.{◌≡◌, ◌+◌, min};
ghost use Rattle.quarantine.specs.Runs.{in_run};

// The most runs that the quarantine holds.
pub(crate) const MOST_RUNS: usize = 64;

// The granules that the shadow bitmap has, and its bytes.
pub(crate) const SHADOW_GRANULES: usize = 1024;

pub(crate) const SHADOW_BYTES: usize = SHADOW_GRANULES / 8;

// A run of granules: its first granule and its number of granules.
#[derive(Clone, Copy, Debug, PartialEq, Eq)]
pub struct Run {
    pub start: usize,
    pub length: usize,
}

impl Run {
    // Whether granule g lies in the run.
    pub(crate) fn holds(self, g: usize) -> bool
        ensures { result ≡ in_run self g }
    {
        self.start <= g && g - self.start < self.length
    }

    // The end of the run's part that the shadow bitmap has.
    pub(crate) fn end_below(self) -> usize
        ensures { result ≡ min (self.start + self.length) SHADOW_GRANULES }
    {
        self.start.saturating_add(self.length).min(SHADOW_GRANULES)
    }
}
