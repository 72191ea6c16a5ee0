ghost use Rattle.std.specs.Prelude.{◌≡◌, ◌<◌, true, false, MatchResult};
ghost use Rattle.machine.specs.Rules.{is_register};
ghost use Rattle.machine.specs.declared.fault.MachineFault.TheVariants.{BadNum};

use crate::compartment::REGISTERS;
use crate::fault::MachineFault;
use crate::registers::COMPARTMENTS;

// Which register of which compartment.
#[derive(Clone, Copy, Debug, PartialEq, Eq)]
pub(crate) struct Slot {
    pub(crate) compartment: usize,
    pub(crate) register: usize,
    ghost compartment_in: { compartment < 8 },
    ghost register_in: { register < 8 },
}

impl Slot {
    // The register that two numbers name, if there is such.
    // Kept by name: two numbers make it, and `TryFrom` takes one.
    pub(crate) fn of(compartment: u32, register: u32) -> Result<Slot, MachineFault>
        ensures { MatchResult result (λ s. (is_register compartment register ≡ true) × (s.compartment ≡ compartment) × (s.register ≡ register)) (λ f. (is_register compartment register ≡ false) × (f ≡ BadNum)) }
    {
        let compartment = compartment as usize;
        let register = register as usize;
        if compartment >= COMPARTMENTS || register >= REGISTERS {
            return Err(MachineFault::BadNum);
        }
        Ok(Slot {
            compartment,
            register,
        })
    }
}
