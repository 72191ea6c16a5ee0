// Why the quarantine denies.
#[derive(Clone, Copy, Debug, PartialEq, Eq)]
pub enum QuarantineFault {
    Revoked,
    Freed,
    QFull,
    Open,
    NoSweep,
    Idle,
}
