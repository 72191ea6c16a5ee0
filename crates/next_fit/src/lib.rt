// The bitmap allocator: next fit over two lent bit buffers.
#![tactic(auto)]

ghost use Rattle.std.specs.Prelude.{◌≡◌, ◌+◌, ◌<◌, ◌≤◌, length};
ghost use Rattle.allocator.specs.Maps.{run_length};
ghost use Rattle.next_fit.specs.Bitmaps.{fresh_map, granules_of, map_of, sizes_answer, sizes_fit, zeroed_if};
ghost use Rattle.next_fit.specs.Laws.{next_fit_lawful};
ghost use Rattle.next_fit.specs.Placement.{next_fit};

use crate::runs::{begin_run, count_taken};
use allocator::allocator::Allocator;
use allocator::cell::Cell;
use allocator::fault::AllocatorFault;
use bits::fill;

mod runs;
mod search;
#[cfg(test)]
mod tests;

// Bit g of `used` says that granule g is not free, and bit g of `firsts` that it is the first of a run, where it is used.
// Kept as it is: two buffers side by side, since a caller lends exactly these two.
#[derive(Drop)]
pub struct NextFit<'a> {
    used: &'a mut [u8],
    firsts: &'a mut [u8],
    // The number of granules.
    // Kept as it is: a number and no Option, since by the rules there are 0 granules where the sizes of the buffers do not fit.
    granules: usize,
    mark: usize,
    ghost sized: { granules ≡ granules_of (length used.now) (length firsts.now) },
}

impl<'a> NextFit<'a> {
    // The number of granules that the two buffers are for: both alike, and for a multiple of 16 granules from 16 to 1,024.
    pub fn check_sizes(used: &[u8], firsts: &[u8]) -> Result<usize, AllocatorFault>
        ensures { result ≡ sizes_answer (length used.now) (length firsts.now) }
    {
        bits::granules(used.len())
            .filter(|_| used.len() == firsts.len())
            .ok_or(AllocatorFault::Sizes)
    }

    // All granules free and the mark at 0; where the sizes do not fit, no granules, and the buffers as they were.
    #[tactic(auto, using(crate::proofs::Counts::fresh_steps))]
    pub fn new(used: &'a mut [u8], firsts: &'a mut [u8]) -> NextFit<'a>
        ensures used { result.used.now ≡ zeroed_if (sizes_fit (length used.old) (length firsts.old)) used.old }
        ensures firsts { result.firsts.now ≡ zeroed_if (sizes_fit (length used.old) (length firsts.old)) firsts.old }
        ensures same_used { result.used.ghost_name ≡ used.entry.ghost_name }
        ensures same_firsts { result.firsts.ghost_name ≡ firsts.entry.ghost_name }
        ensures map { map_of result.used.now result.firsts.now ≡ fresh_map (length used.old) (length firsts.old) }
        ensures mark { result.mark ≡ 0 }
    {
        let granules = match NextFit::check_sizes(&*used, &*firsts) {
            Ok(n) => {
                used.fill(0);
                firsts.fill(0);
                n
            }
            Err(_) => 0,
        };
        NextFit {
            used,
            firsts,
            granules,
            mark: 0,
        }
    }
}

impl<'a> Allocator for NextFit<'a> {
    ghost cells = { λ s. map_of s.used.now s.firsts.now };

    ghost mark = { λ s. s.mark };

    ghost most = { λ s. length (map_of s.used.now s.firsts.now) };

    ghost place = { next_fit };

    ghost lawful = { next_fit_lawful };

    #[tactic(auto, using(crate::proofs::Counts::counted))]
    fn granules(&self) -> usize {
        self.granules
    }

    #[tactic(auto, using(crate::proofs::Counts::taken_counted, crate::proofs::Counts::none_taken))]
    fn taken(&self) -> usize {
        if self.granules == 0 {
            return 0;
        }
        count_taken(&*self.used)
    }

    fn allowance(&self) -> usize {
        self.granules()
    }

    #[tactic(auto, using(crate::proofs::Counts::counted, crate::proofs::Lengths::run_steps))]
    fn length_at(&self, b: usize) -> usize
        ensures within { 0 < result → b + result ≤ self.now.granules }
        ensures value { result ≡ run_length (map_of self.now.used.now self.now.firsts.now) b }
    {
        if self.cell(b) != Cell::First {
            return 0;
        }
        1 + self.rests_from(b + 1)
    }

    #[tactic(auto, using(crate::proofs::Counts::length_same))]
    fn allocate(&mut self, n: usize) -> Result<usize, AllocatorFault> {
        self.admit(n)?;
        let (b, mark) = self.find(n).ok_or(AllocatorFault::NoRun)?;
        let end = b + n;
        fill(&mut *self.used, b, end, true);
        begin_run(&mut *self.firsts, b, end);
        self.mark = mark;
        Ok(b)
    }

    #[tactic(auto, using(crate::proofs::Counts::length_same, crate::proofs::Counts::released_steps))]
    fn release(&mut self, b: usize) -> Result<usize, AllocatorFault> {
        let n = self.length_at(b);
        if n == 0 {
            return Err(AllocatorFault::NotWhole);
        }
        fill(&mut *self.used, b, b + n, false);
        Ok(n)
    }
}
