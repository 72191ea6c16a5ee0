// Why an allocator denies.
#[derive(Clone, Copy, Debug, PartialEq, Eq)]
pub enum AllocatorFault {
    BadNum,
    NotWhole,
    Allowance,
    NoRun,
    Sizes,
}
