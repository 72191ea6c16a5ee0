ghost use Rattle.std.specs.Prelude.{◌≡◌, ◌≤◌, true, false, MatchResult};
ghost use Rattle.machine.specs.Rules.{is_operand};
ghost use Rattle.machine.specs.declared.fault.MachineFault.TheVariants.{BadNum};

use crate::fault::MachineFault;

// The largest operand of a call.
pub const MAX_OPERAND: u32 = 65535;

// A number that a call may take as an operand.
#[derive(Clone, Copy, Debug, PartialEq, Eq)]
pub(crate) struct Operand {
    pub(crate) value: u32,
    ghost small: { value ≤ 65535 },
}

impl Operand {
    // The operand that a number is, if it is one.
    // Kept by name: `of`, as of a `Slot`, which two numbers make; `TryFrom` would be no plainer.
    pub(crate) fn of(n: u32) -> Result<Operand, MachineFault>
        ensures { MatchResult result (λ o. (is_operand n ≡ true) × (o.value ≡ n)) (λ f. (is_operand n ≡ false) × (f ≡ BadNum)) }
    {
        if n > MAX_OPERAND {
            return Err(MachineFault::BadNum);
        }
        Ok(Operand { value: n })
    }
}
