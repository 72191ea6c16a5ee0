// The shadow bitmap: one bit a granule.
ghost use Rattle.std.specs.Prelude.{◌≡◌, ◌+◌, min, true, [], length};
ghost use Rattle.bits.specs.Bits.{bits_of, filled};
ghost use Rattle.quarantine.specs.Runs.{shadow_of};

use crate::run::{Run, SHADOW_BYTES, SHADOW_GRANULES};
use bits::fill;

// Sets the bits of a run.
fn paint(shadow: &mut [u8], run: Run)
    ensures { bits_of shadow.new ≡ filled (bits_of shadow.old) run.start (min (run.start + run.length) SHADOW_GRANULES) true }
{
    fill(shadow, run.start, run.end_below(), true);
}

// The bitmap with no bit set.
pub(crate) fn unpainted() -> [u8; SHADOW_BYTES]
    ensures { bits_of result ≡ shadow_of [] }
{
    [0; SHADOW_BYTES]
}

// The bitmap of some runs.
pub(crate) fn shade(runs: &[Run]) -> [u8; SHADOW_BYTES]
    ensures { bits_of result ≡ shadow_of runs.now }
{
    let mut shadow = unpainted();
    for run in runs {
        paint(&mut shadow, *run);
    }
    shadow
}
