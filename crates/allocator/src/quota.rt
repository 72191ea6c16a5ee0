ghost use Rattle.std.specs.Prelude.{◌≡◌, min};

use crate::allocator::Allocator;
use crate::fault::AllocatorFault;

// At most `limit` granules of the allocator below, which may be a quota too.
#[derive(Drop)]
pub struct Quota<B: Allocator> {
    below: B,
    limit: usize,
}

impl<B: Allocator> Quota<B> {
    pub fn new(below: B, limit: usize) -> Quota<B>
        ensures below { result.below ≡ below }
        ensures limit { result.limit ≡ limit }
    {
        Quota { below, limit }
    }
}

impl<B: Allocator> Allocator for Quota<B> {
    ghost cells = { λ q. B.Allocator.cells q.below };

    ghost mark = { λ q. B.Allocator.mark q.below };

    ghost most = { λ q. min q.limit (B.Allocator.most q.below) };

    ghost place = { B.Allocator.place };

    ghost lawful = { B.Allocator.lawful };

    fn granules(&self) -> usize {
        self.below.granules()
    }

    fn taken(&self) -> usize {
        self.below.taken()
    }

    fn allowance(&self) -> usize {
        self.limit.min(self.below.allowance())
    }

    fn length_at(&self, b: usize) -> usize {
        self.below.length_at(b)
    }

    fn allocate(&mut self, n: usize) -> Result<usize, AllocatorFault> {
        self.admit(n)?;
        self.below.allocate(n)
    }

    fn release(&mut self, b: usize) -> Result<usize, AllocatorFault> {
        self.below.release(b)
    }
}
