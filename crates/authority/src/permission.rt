// What a capability may permit. The numbers are the bits in a permission number.
#[derive(Clone, Copy, Debug, PartialEq, Eq)]
pub enum Permission {
    Load = 1,
    Store = 2,
    Capabilities = 4,
    Give = 8,
    Own = 16,
}
