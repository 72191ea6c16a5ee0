ghost use Rattle.std.specs.Prelude.{◌≡◌};
ghost use Rattle.machine.specs.Answers.{held_answer};
ghost use Rattle.machine.specs.Model.{empty_registers, register_in, with_register_in};

use crate::compartment::Compartment;
use crate::fault::MachineFault;
use crate::slot::Slot;
use authority::capability::Capability;

// The number of compartments.
pub const COMPARTMENTS: usize = 8;

// The registers of the eight compartments.
// Kept as it is: plain arrays, since the machine takes no memory from a heap, and on two levels, since the check does not
// cover (tried) an element of an array of arrays whose elements have ghost fields.
#[derive(Clone, Copy, Debug, PartialEq, Eq)]
pub struct Registers {
    compartments: [Compartment; COMPARTMENTS],
}

impl Registers {
    pub fn empty() -> Registers
        ensures { result ≡ empty_registers }
    {
        Registers {
            compartments: [Compartment::empty(); COMPARTMENTS],
        }
    }

    // What a register holds.
    pub(crate) fn get(&self, slot: Slot) -> Option<Capability>
        ensures { result ≡ register_in self.now slot.compartment slot.register }
    {
        self.compartments[slot.compartment].get(slot)
    }

    // The capability of a register; denied if it is empty.
    pub(crate) fn held(&self, slot: Slot) -> Result<Capability, MachineFault>
        ensures { result ≡ held_answer (register_in self.now slot.compartment slot.register) }
    {
        self.get(slot).ok_or(MachineFault::Empty)
    }

    // Gives a register what it is to hold.
    pub(crate) fn put(&mut self, slot: Slot, held: Option<Capability>)
        ensures { self.new ≡ with_register_in self.old slot.compartment slot.register held }
    {
        self.compartments[slot.compartment].put(slot, held);
    }
}
