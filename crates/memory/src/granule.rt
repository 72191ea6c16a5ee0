use authority::numbers::Numbers;

// The bytes of a granule.
pub const GRANULE_BYTES: usize = 16;

// What a granule holds: its tag, and the numbers at the places of a capability's image.
// Kept as it is: the tag stands beside the numbers, since the numbers of an untagged granule are data too, and are read.
#[derive(Clone, Copy, Debug, PartialEq, Eq)]
pub struct Granule {
    pub tagged: bool,
    pub numbers: Numbers,
}
