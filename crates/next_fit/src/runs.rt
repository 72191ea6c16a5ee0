// Runs of granules.
// Kept as it is, here and in search.rt: `map_of` of the two buffers in each clause; a name for it would be no plainer, since
// the trait's `cells` is that very term and each lemma speaks of the two buffers.
ghost use Rattle.std.specs.Prelude.{◌≡◌, ◌-◌, ◌*◌, ◌≤◌, true, false, count_by, length, slice_index_or, slice_set};
ghost use Rattle.allocator.specs.declared.cell.Cell.TheVariants.{Free};
ghost use Rattle.std.specs.List.{prefix_len, range_with_len};
ghost use Rattle.allocator.specs.Maps.{is_rest};
ghost use Rattle.bits.specs.Bits.{bits_of, filled};
ghost use Rattle.next_fit.specs.Bitmaps.{map_of};

use crate::NextFit;
use allocator::cell::Cell;
use bits::{fill, get, put};

impl<'a> NextFit<'a> {
    // What granule g is; past the last it counts as free.
    #[tactic(auto, using(crate::proofs::Counts::cell_steps))]
    pub(crate) fn cell(&self, g: usize) -> Cell
        ensures { result ≡ slice_index_or (map_of self.now.used.now self.now.firsts.now) g Free }
    {
        if g >= self.granules || !get(&*self.used, g) {
            return Cell::Free;
        }
        if get(&*self.firsts, g) {
            Cell::First
        } else {
            Cell::Rest
        }
    }

    // How many granules from `from` on are the rest of a run, up to the first that is not.
    #[tactic(auto, using(crate::proofs::Lengths::rest_same))]
    pub(crate) fn rests_from(&self, from: usize) -> usize
        ensures { result ≡ prefix_len (λ g. is_rest (slice_index_or (map_of self.now.used.now self.now.firsts.now) g Free)) (range_with_len from (self.now.granules - from)) }
    {
        (from..self.granules)
            .take_while(|&g| self.cell(g) == Cell::Rest)
            .count()
    }
}

// The number of granules that are used, counted byte by byte.
#[tactic(auto, using(crate::proofs::Bytes::byte_counted, crate::proofs::Bytes::byte_within))]
pub(crate) fn count_taken(used: &[u8]) -> usize
    requires { length used.now ≤ 128 }
    ensures { result ≡ count_by (λ g. slice_index_or (bits_of used.now) g false) (range_with_len 0 (8 * length used.now)) }
{
    let mut taken = 0;
    for byte in used {
        taken += byte.count_ones() as usize;
    }
    taken
}

// Among the granules from b up to `end` only b is a first.
pub(crate) fn begin_run(firsts: &mut [u8], b: usize, end: usize)
    ensures { bits_of firsts.new ≡ slice_set (filled (bits_of firsts.old) b end false) b true }
{
    fill(firsts, b, end, false);
    put(firsts, b, true);
}
