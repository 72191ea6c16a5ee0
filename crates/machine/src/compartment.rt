ghost use Rattle.std.specs.Prelude.{◌≡◌, None, slice_index_or, slice_set};
ghost use Rattle.machine.specs.Model.{empty_compartment};

use crate::slot::Slot;
use authority::capability::Capability;

// The registers of a compartment.
pub const REGISTERS: usize = 8;

// A compartment: eight registers, each empty or with one capability.
#[derive(Clone, Copy, Debug, PartialEq, Eq)]
pub struct Compartment {
    registers: [Option<Capability>; REGISTERS],
}

impl Compartment {
    // A compartment with empty registers.
    pub fn empty() -> Compartment
        ensures { result ≡ empty_compartment }
    {
        Compartment {
            registers: [None; REGISTERS],
        }
    }

    // What the register that a slot names holds.
    pub(crate) fn get(&self, slot: Slot) -> Option<Capability>
        ensures { result ≡ slice_index_or self.now.registers slot.register None }
    {
        self.registers[slot.register]
    }

    pub(crate) fn put(&mut self, slot: Slot, held: Option<Capability>)
        ensures { self.new.registers ≡ slice_set self.old.registers slot.register held }
    {
        self.registers[slot.register] = held;
    }
}
