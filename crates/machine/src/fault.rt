use allocator::fault::AllocatorFault;
use quarantine::fault::QuarantineFault;

// Why a machine denies a call; the faults of quarantine and allocator are held whole.
#[derive(Clone, Copy, Debug, PartialEq, Eq)]
pub enum MachineFault {
    BadNum,
    Empty,
    Perm,
    Bounds,
    Align,
    NoCap,
    NotWhole,
    Nothing,
    FullReg,
    Sizes,
    Quarantine(QuarantineFault),
    Allocator(AllocatorFault),
}
