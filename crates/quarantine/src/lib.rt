// The quarantine: freed runs that wait for a revocation sweep, runs that the open sweep has painted, and the sweep.
#![tactic(auto)]

ghost use Rattle.std.specs.Prelude.{◌≡◌, true, length, take};
ghost use Rattle.bits.specs.Bits.{bits_of};
ghost use Rattle.quarantine.specs.Runs.{most_runs, shadow_of};
ghost use Rattle.quarantine.specs.Sweeps.{is_at_rest};

use crate::counts::Counts;
use crate::run::{MOST_RUNS, Run, SHADOW_BYTES};
use crate::sweep::Sweep;

mod counts;
pub mod fault;
mod looks;
pub mod numbered;
pub mod run;
mod shade;
pub mod sweep;
#[cfg(test)]
mod tests;
mod turns;

// `runs` holds the painted runs and then the waiting runs, each in the order freed.
// Bit g of `shadow` says that granule g is painted; a sweep at rest has painted nothing.
// Kept as it is: runs, painted runs and bitmap lie in plain arrays, by a rule of the project: the quarantine takes no memory
// from a heap.
#[derive(Drop)]
pub struct Quarantine {
    runs: [Run; MOST_RUNS],
    counts: Counts,
    shadow: [u8; SHADOW_BYTES],
    sweep: Sweep,
    ghost whole: { length runs ≡ most_runs },
    ghost shaded: { bits_of shadow ≡ shadow_of (take counts.painted runs) },
    ghost rested: { is_at_rest sweep counts.painted ≡ true },
}
