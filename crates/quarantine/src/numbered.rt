ghost use Rattle.denial.specs.declared.Layer.TheVariants.{Quarantine as QuarantineLayer};
ghost use Rattle.quarantine.specs.Faults.{quarantine_denial};

use crate::fault::QuarantineFault;
use denial::{Denial, Fault, Layer};

impl Fault for QuarantineFault {
    ghost denial_of = { quarantine_denial };

    ghost layer_of = { λ _. QuarantineLayer };

    fn denial(self) -> Denial {
        match self {
            QuarantineFault::Revoked => Denial::Revoked,
            QuarantineFault::Freed => Denial::Freed,
            QuarantineFault::QFull => Denial::QFull,
            QuarantineFault::Open => Denial::Open,
            QuarantineFault::NoSweep => Denial::NoSweep,
            QuarantineFault::Idle => Denial::Idle,
        }
    }

    fn layer(self) -> Layer {
        Layer::Quarantine
    }
}
