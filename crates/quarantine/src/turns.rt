// What changes the quarantine: a freed run, the host's calls, and the end of a sweep.
ghost use Rattle.quarantine.specs.Kept.{after_turn, join_answer, kept_of, painted_of, turn_answer, waiting_of, with_finished, with_opened, with_shut};
ghost use Rattle.quarantine.specs.declared.sweep.Sweep.TheVariants.{Idle};
ghost use Rattle.std.specs.Prelude.{◌≡◌, [], ◌∷◌, ◌++◌, Ok, Err};

use crate::Quarantine;
use crate::fault::QuarantineFault;
use crate::run::Run;
use crate::shade::{shade, unpainted};
use crate::sweep::{HostCall, Sweep, Turn, reaches_end};

impl Quarantine {
    // A freed run waits, behind the others.
    pub fn join(&mut self, run: Run) -> Result<(), QuarantineFault>
        ensures answer { result ≡ join_answer (waiting_of self.old) (painted_of self.old) run.start }
        ensures waiting { elim result [ Ok _ ↦ waiting_of self.new ≡ waiting_of self.old ++ (run ∷ []) | Err _ ↦ self.new ≡ self.old ] }
        ensures painted { painted_of self.new ≡ painted_of self.old }
        ensures sweep { self.new.sweep ≡ self.old.sweep }
    {
        self.check_join(run.start)?;
        self.runs[self.counts.held] = run;
        self.counts = self.counts.join();
        Ok(())
    }

    // A sweep opens.
    fn paint_waiting(&mut self)
        requires { self.old.sweep ≡ Idle }
        ensures { kept_of self.new ≡ with_opened (kept_of self.old) }
    {
        self.shadow = shade(self.waiting());
        self.counts = self.counts.paint();
        self.sweep = Sweep::begun();
    }

    // The painted runs wait again.
    fn unpaint(&mut self)
        ensures { kept_of self.new ≡ with_shut (kept_of self.old) }
    {
        self.shadow = unpainted();
        self.counts = self.counts.shut();
        self.sweep = Sweep::Idle;
    }

    // A call of the host's, over a memory of `granules` granules.
    pub fn turn(&mut self, call: HostCall, granules: usize) -> Result<Turn, QuarantineFault>
        ensures answer { result ≡ turn_answer call granules (kept_of self.old) }
        ensures kept { kept_of self.new ≡ after_turn call granules (kept_of self.old) }
        ensures denied { elim result [ Ok _ ↦ Unit {0} | Err _ ↦ self.new ≡ self.old ] }
    {
        let waiting = self.waiting().len();
        let painted = self.painted().len();
        // Kept as it is: the project's rule is an in-place match on the sweep's state and the call.
        match (&mut self.sweep, call) {
            (Sweep::Open { .. }, HostCall::Open) => Err(QuarantineFault::Open),
            (Sweep::Idle, HostCall::Open) => {
                if waiting == 0 {
                    return Err(QuarantineFault::Idle);
                }
                self.paint_waiting();
                Ok(Turn::Opened { runs: waiting })
            }
            (Sweep::Idle, HostCall::Step { .. }) => Err(QuarantineFault::NoSweep),
            (Sweep::Open { passed }, HostCall::Step { granules: k }) => {
                let from = *passed;
                if reaches_end(from, k, granules) {
                    return Ok(Turn::Ending { from });
                }
                *passed = from + k;
                Ok(Turn::Passing {
                    from,
                    left: granules - (from + k),
                })
            }
            (Sweep::Idle, HostCall::Shut) => Err(QuarantineFault::NoSweep),
            (Sweep::Open { .. }, HostCall::Shut) => {
                self.unpaint();
                Ok(Turn::Shut { runs: painted })
            }
        }
    }

    // A sweep ends: its painted runs are gone. An idle sweep has none.
    pub fn finish(&mut self)
        ensures { kept_of self.new ≡ with_finished (kept_of self.old) }
    {
        let counts = self.counts;
        self.shadow = unpainted();
        self.runs.copy_within(counts.painted..counts.held, 0);
        self.counts = counts.finish();
        self.sweep = Sweep::Idle;
    }
}
