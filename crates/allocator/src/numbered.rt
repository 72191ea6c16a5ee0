ghost use Rattle.allocator.specs.Faults.{allocator_denial};
ghost use Rattle.denial.specs.declared.Layer.TheVariants.{Allocator as AllocatorLayer};

use crate::fault::AllocatorFault;
use denial::{Denial, Fault, Layer};

impl Fault for AllocatorFault {
    ghost denial_of = { allocator_denial };

    ghost layer_of = { λ _. AllocatorLayer };

    fn denial(self) -> Denial {
        match self {
            AllocatorFault::BadNum => Denial::BadNum,
            AllocatorFault::NotWhole => Denial::NotWhole,
            AllocatorFault::Allowance => Denial::Allowance,
            AllocatorFault::NoRun => Denial::NoRun,
            AllocatorFault::Sizes => Denial::Sizes,
        }
    }

    fn layer(self) -> Layer {
        Layer::Allocator
    }
}
