ghost use Rattle.machine.specs.Faults.{from_memory, machine_denial, machine_layer};
ghost use Rattle.machine.specs.declared.fault.MachineFault.TheVariants.{Allocator as AllocatorCase};
ghost use Rattle.std.specs.Prelude.{◌≡◌};

use crate::fault::MachineFault;
use allocator::fault::AllocatorFault;
use denial::{Denial, Fault, Layer};
use memory::fault::MemoryFault;

impl Fault for MachineFault {
    ghost denial_of = { machine_denial };

    ghost layer_of = { machine_layer };

    fn denial(self) -> Denial {
        match self {
            MachineFault::BadNum => Denial::BadNum,
            MachineFault::Empty => Denial::Empty,
            MachineFault::Perm => Denial::Perm,
            MachineFault::Bounds => Denial::Bounds,
            MachineFault::Align => Denial::Align,
            MachineFault::NoCap => Denial::NoCap,
            MachineFault::NotWhole => Denial::NotWhole,
            MachineFault::Nothing => Denial::Nothing,
            MachineFault::FullReg => Denial::FullReg,
            MachineFault::Sizes => Denial::Sizes,
            MachineFault::Quarantine(fault) => fault.denial(),
            MachineFault::Allocator(fault) => fault.denial(),
        }
    }

    fn layer(self) -> Layer {
        match self {
            MachineFault::Quarantine(fault) => fault.layer(),
            MachineFault::Allocator(fault) => fault.layer(),
            _ => Layer::Machine,
        }
    }
}

// Kept by hand, like the next: a derived `From` has no contract, and the clause names the fault that `?` makes.
impl From<AllocatorFault> for MachineFault {
    ghost from_gives = { λ x y. y ≡ AllocatorCase x };

    fn from(fault: AllocatorFault) -> MachineFault {
        MachineFault::Allocator(fault)
    }
}

// What the memory denies, the machine denies as its own.
impl From<MemoryFault> for MachineFault {
    ghost from_gives = { λ x y. y ≡ from_memory x };

    fn from(fault: MemoryFault) -> MachineFault {
        match fault {
            MemoryFault::Bounds => MachineFault::Bounds,
            MemoryFault::BadNum => MachineFault::BadNum,
            MemoryFault::Sizes => MachineFault::Sizes,
        }
    }
}
