ghost use Rattle.std.specs.Prelude.{◌≡◌, ℕ, ◌+◌, ◌≤◌, false, List, length, is_ok, IfOk};
ghost use Rattle.allocator.specs.Allocators.{admitting, allocating, releasing};
ghost use Rattle.allocator.specs.declared.cell.Cell.{Cell};
ghost use Rattle.allocator.specs.Maps.{Lawful, Rule, run_length, taken_in};

use crate::fault::AllocatorFault;

// An allocator of granules. Its model is the map, the mark, the allowance and the placement rule with its law.
// Kept as they are: the clauses `denied`, `most` and `size` of each change, since they relate the allocator before to the
// allocator after, which no ghost field does.
pub trait Allocator {
    // Each granule as free, first or rest.
    ghost cells: { Self → List Cell };

    ghost mark: { Self → ℕ };

    // How many granules may be taken at most.
    ghost most: { Self → ℕ };

    ghost place: { Rule };

    ghost lawful: { Lawful place };

    fn granules(&self) -> usize
        ensures { result ≡ length (cells self.now) };

    // The number of granules that are not free.
    fn taken(&self) -> usize
        ensures { result ≡ taken_in (cells self.now) };

    fn allowance(&self) -> usize
        ensures { result ≡ most self.now };

    // The length of the run that begins at granule b, or 0.
    // Kept as it is: that the length is 0 where no run begins is a rule of the project.
    fn length_at(&self, b: usize) -> usize
        ensures { result ≡ run_length (cells self.now) b };

    // Denies where n is 0, and where n more than the taken granules are more than the allowance.
    fn admit(&self, n: usize) -> Result<(), AllocatorFault>
        ensures { result ≡ admitting (cells self.now) (most self.now) n }
    {
        if n == 0 {
            return Err(AllocatorFault::BadNum);
        }
        if n > self.allowance().saturating_sub(self.taken()) {
            return Err(AllocatorFault::Allowance);
        }
        Ok(())
    }

    // Takes n granules at the place that the rule answers, and answers their base granule.
    fn allocate(&mut self, n: usize) -> Result<usize, AllocatorFault>
        ensures answer { result ≡ (allocating place (cells self.old) (mark self.old) (most self.old) n).answer }
        ensures cells { cells self.new ≡ (allocating place (cells self.old) (mark self.old) (most self.old) n).cells }
        ensures mark { mark self.new ≡ (allocating place (cells self.old) (mark self.old) (most self.old) n).mark }
        ensures most { most self.new ≡ most self.old }
        ensures inside { IfOk result (λ b. b + n ≤ length (cells self.old)) }
        ensures size { length (cells self.new) ≡ length (cells self.old) }
        ensures denied { is_ok result ≡ false → self.new ≡ self.old };

    // Frees the run that begins at granule b, and answers its length.
    fn release(&mut self, b: usize) -> Result<usize, AllocatorFault>
        ensures answer { result ≡ (releasing (cells self.old) (mark self.old) b).answer }
        ensures cells { cells self.new ≡ (releasing (cells self.old) (mark self.old) b).cells }
        ensures mark { mark self.new ≡ mark self.old }
        ensures most { most self.new ≡ most self.old }
        ensures size { length (cells self.new) ≡ length (cells self.old) }
        ensures denied { is_ok result ≡ false → self.new ≡ self.old };
}
