// A new quarantine, and what the quarantine answers without a change.
ghost use Rattle.std.specs.Prelude.{◌≡◌, ◌+◌, ◌<◌, [], length, IfOk};
ghost use Rattle.quarantine.specs.Kept.{join_answer, painted_of, waiting_of};
ghost use Rattle.quarantine.specs.Runs.{begins_at, in_runs, most_runs};
ghost use Rattle.quarantine.specs.declared.sweep.Sweep.TheVariants.{Idle};
ghost use Rattle.std.specs.List.{slice_get};

use crate::Quarantine;
use crate::counts::Counts;
use crate::fault::QuarantineFault;
use crate::run::{MOST_RUNS, Run, SHADOW_GRANULES};
use crate::shade::unpainted;
use crate::sweep::Sweep;
use bits::get;

impl Quarantine {
    // No run is held, and no sweep is open.
    pub fn new() -> Quarantine
        ensures painted { painted_of result ≡ [] }
        ensures waiting { waiting_of result ≡ [] }
        ensures sweep { result.sweep ≡ Idle }
    {
        Quarantine {
            runs: [Run {
                start: 0,
                length: 0,
            }; MOST_RUNS],
            counts: Counts::waiting(0),
            shadow: unpainted(),
            sweep: Sweep::Idle,
        }
    }

    // The painted runs, in the order freed.
    pub fn painted(&self) -> &[Run]
        ensures { result.now ≡ painted_of self.now }
    {
        &self.runs[..self.counts.painted]
    }

    // The runs that wait, in the order freed.
    pub(crate) fn waiting(&self) -> &[Run]
        ensures { result.now ≡ waiting_of self.now }
    {
        &self.runs[self.counts.painted..self.counts.held]
    }

    // How many runs are held.
    pub fn len(&self) -> usize
        ensures { result ≡ length (waiting_of self.now) + length (painted_of self.now) }
    {
        self.counts.held
    }

    // Whether a waiting run begins at granule `start`.
    pub fn waits(&self, start: usize) -> bool
        ensures { result ≡ begins_at (waiting_of self.now) start }
    {
        self.waiting().iter().any(|run| run.start == start)
    }

    // Whether a granule lies in a painted run. The bitmap has the granules below 1,024.
    pub fn is_painted(&self, granule: usize) -> bool
        ensures { result ≡ in_runs (painted_of self.now) granule }
    {
        if granule < SHADOW_GRANULES {
            get(&self.shadow, granule)
        } else {
            self.painted().iter().any(|run| run.holds(granule))
        }
    }

    // The i-th painted run, in the order freed.
    pub fn painted_run(&self, i: usize) -> Option<Run>
        ensures { result ≡ slice_get (painted_of self.now) i }
    {
        self.painted().get(i).copied()
    }

    // Whether a run that begins at granule `start` can join, or why not.
    pub(crate) fn check_join(&self, start: usize) -> Result<(), QuarantineFault>
        ensures room { IfOk result (λ _. self.now.counts.held < most_runs) }
        ensures value { result ≡ join_answer (waiting_of self.now) (painted_of self.now) start }
    {
        if self.waits(start) {
            return Err(QuarantineFault::Freed);
        }
        if self.counts.held >= MOST_RUNS {
            return Err(QuarantineFault::QFull);
        }
        Ok(())
    }
}
