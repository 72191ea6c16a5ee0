ghost use Rattle.denial.specs.declared.Layer.TheVariants.{Memory};
ghost use Rattle.memory.specs.Faults.{memory_denial};

use crate::fault::MemoryFault;
use denial::{Denial, Fault, Layer};

impl Fault for MemoryFault {
    ghost denial_of = { memory_denial };

    ghost layer_of = { λ _. Memory };

    fn denial(self) -> Denial {
        match self {
            MemoryFault::Bounds => Denial::Bounds,
            MemoryFault::BadNum => Denial::BadNum,
            MemoryFault::Sizes => Denial::Sizes,
        }
    }

    fn layer(self) -> Layer {
        Layer::Memory
    }
}
