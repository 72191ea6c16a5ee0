// The numbers of a capability: its base, its top and its permission number. Not all numbers make one.
#[derive(Clone, Copy, Debug, PartialEq, Eq)]
pub struct Numbers {
    pub base: u32,
    pub top: u32,
    pub permissions: u32,
}
