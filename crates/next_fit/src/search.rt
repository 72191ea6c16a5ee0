// The search for free granules.
ghost use Rattle.std.specs.Prelude.{◌≡◌, ◌+◌, ◌-◌, ◌<◌, ◌≤◌, true, length, map, IfSome, slice_index_or};
ghost use Rattle.next_fit.specs.Bitmaps.{map_of};
ghost use Rattle.next_fit.specs.Placement.{is_used, lowest_fit, next_fit};

use crate::NextFit;
use bits::get;

impl<'a> NextFit<'a> {
    // Whether granule g is taken; past the last counts as taken.
    #[tactic(auto, using(crate::proofs::Counts::taken_steps))]
    fn is_taken(&self, g: usize) -> bool
        ensures { result ≡ slice_index_or (map is_used (map_of self.now.used.now self.now.firsts.now)) g true }
    {
        g >= self.granules || get(&*self.used, g)
    }

    // The lowest granule from `from` on with n free granules in a row.
    // A candidate that meets a taken granule goes on just behind it, so that each granule is tested once.
    #[tactic(auto, using(crate::proofs::Counts::length_used, crate::proofs::Seeks::seek_steps))]
    fn seek(&self, n: usize, from: usize) -> Option<usize>
        ensures within { IfSome result (λ b. b + n ≤ self.now.granules) }
        ensures value { result ≡ lowest_fit (map is_used (map_of self.now.used.now self.now.firsts.now)) n from (self.now.granules - from) }
    {
        let mut b = from;
        // Kept as it is: that next fit searches by nested loops with a labelled `continue` is a rule of the project.
        'candidates: while b < self.granules {
            for i in 0..n {
                if self.is_taken(b + i) {
                    b += i + 1;
                    continue 'candidates;
                }
            }
            return Some(b);
        }
        None
    }

    // What next fit answers, as (base, mark): the lowest place from the mark on, else the lowest from 0 on.
    // Kept as it is: that a placement is a tuple is a rule of the project.
    #[tactic(auto, using(crate::proofs::Counts::counted, crate::proofs::Counts::length_used))]
    pub(crate) fn find(&self, n: usize) -> Option<(usize, usize)>
        ensures within { IfSome result (λ x. x.0 + n ≤ length (map_of self.now.used.now self.now.firsts.now)) }
        ensures value { result ≡ next_fit (map_of self.now.used.now self.now.firsts.now) self.now.mark n }
    {
        // Kept as a `match`: tried with `or_else`, and the proof did not close: the check knows nothing of its closure where the
        // first search finds none.
        let b = match self.seek(n, self.mark) {
            Some(b) => b,
            None => self.seek(n, 0)?,
        };
        Some((b, b + n))
    }
}
