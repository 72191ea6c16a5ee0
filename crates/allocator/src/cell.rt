// What a granule is in the map of an allocator: free, the first of a run, or one of its rest.
#[derive(Clone, Copy, Debug, PartialEq, Eq)]
pub enum Cell {
    Free,
    First,
    Rest,
}
