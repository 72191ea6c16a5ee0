// Why a memory denies.
#[derive(Clone, Copy, Debug, PartialEq, Eq)]
pub enum MemoryFault {
    Bounds,
    BadNum,
    Sizes,
}
