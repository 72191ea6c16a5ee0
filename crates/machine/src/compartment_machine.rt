ghost use Rattle.machine.specs.Calls.{call_of};
ghost use Rattle.machine.specs.Model.{Fixed, State, outcome, state_after};
ghost use Rattle.machine.specs.Rules.{derive_rule, drop_rule, getb_rule, getc_rule, give_rule, grant_rule, perform as perform_rule, putb_rule, putc_rule};
ghost use Rattle.std.specs.Prelude.{◌≡◌, false, is_ok};

use crate::fault::MachineFault;
use call::Call;

// A machine that compartments call. Each call answers and changes the state as its rule says; a denied call leaves
// the whole machine as it was.
// Kept as they are: the clauses `fixed` and `denied` at each call, since they relate the machine before to the machine
// after, and a ghost field says only what holds of one machine; and compartment and register as two numbers, since a
// call may name two registers of one compartment.
pub trait CompartmentMachine {
    ghost fixed: { Self → Fixed };

    ghost state: { Self → State };

    // Grants n granules: a register gets the bytes of a new run with all permissions. Answers the base address.
    fn grant(&mut self, compartment: u32, register: u32, granules: u32) -> Result<u32, MachineFault>
        ensures answer { result ≡ outcome (grant_rule (fixed self.old) (state self.old) compartment register granules) }
        ensures state { state self.new ≡ state_after (state self.old) (grant_rule (fixed self.old) (state self.old) compartment register granules) }
        ensures fixed { fixed self.new ≡ fixed self.old }
        ensures denied { is_ok result ≡ false → self.new ≡ self.old };

    // Narrows the capability of a register into another. Answers the length that is left.
    fn derive(
        &mut self,
        compartment: u32,
        register: u32,
        source: u32,
        offset: u32,
        length: u32,
        permissions: u32,
    ) -> Result<u32, MachineFault>
        ensures answer { result ≡ outcome (derive_rule (state self.old) compartment register source offset length permissions) }
        ensures state { state self.new ≡ state_after (state self.old) (derive_rule (state self.old) compartment register source offset length permissions) }
        ensures fixed { fixed self.new ≡ fixed self.old }
        ensures denied { is_ok result ≡ false → self.new ≡ self.old };

    // Answers the byte at an offset.
    fn getb(&mut self, compartment: u32, register: u32, offset: u32) -> Result<u32, MachineFault>
        ensures answer { result ≡ outcome (getb_rule (state self.old) compartment register offset) }
        ensures state { state self.new ≡ state_after (state self.old) (getb_rule (state self.old) compartment register offset) }
        ensures fixed { fixed self.new ≡ fixed self.old }
        ensures denied { is_ok result ≡ false → self.new ≡ self.old };

    // Stores a byte at an offset.
    fn putb(
        &mut self,
        compartment: u32,
        register: u32,
        offset: u32,
        value: u32,
    ) -> Result<u32, MachineFault>
        ensures answer { result ≡ outcome (putb_rule (state self.old) compartment register offset value) }
        ensures state { state self.new ≡ state_after (state self.old) (putb_rule (state self.old) compartment register offset value) }
        ensures fixed { fixed self.new ≡ fixed self.old }
        ensures denied { is_ok result ≡ false → self.new ≡ self.old };

    // Stores the capability of a register at an offset.
    fn putc(
        &mut self,
        compartment: u32,
        register: u32,
        offset: u32,
        source: u32,
    ) -> Result<u32, MachineFault>
        ensures answer { result ≡ outcome (putc_rule (state self.old) compartment register offset source) }
        ensures state { state self.new ≡ state_after (state self.old) (putc_rule (state self.old) compartment register offset source) }
        ensures fixed { fixed self.new ≡ fixed self.old }
        ensures denied { is_ok result ≡ false → self.new ≡ self.old };

    // Loads the capability at an offset into a register.
    fn getc(
        &mut self,
        compartment: u32,
        register: u32,
        offset: u32,
        target: u32,
    ) -> Result<u32, MachineFault>
        ensures answer { result ≡ outcome (getc_rule (state self.old) compartment register offset target) }
        ensures state { state self.new ≡ state_after (state self.old) (getc_rule (state self.old) compartment register offset target) }
        ensures fixed { fixed self.new ≡ fixed self.old }
        ensures denied { is_ok result ≡ false → self.new ≡ self.old };

    // Copies a register to an empty register of another compartment.
    fn give(
        &mut self,
        compartment: u32,
        register: u32,
        recipient: u32,
        target: u32,
    ) -> Result<u32, MachineFault>
        ensures answer { result ≡ outcome (give_rule (state self.old) compartment register recipient target) }
        ensures state { state self.new ≡ state_after (state self.old) (give_rule (state self.old) compartment register recipient target) }
        ensures fixed { fixed self.new ≡ fixed self.old }
        ensures denied { is_ok result ≡ false → self.new ≡ self.old };

    // Empties a register.
    fn drop(&mut self, compartment: u32, register: u32) -> Result<u32, MachineFault>
        ensures answer { result ≡ outcome (drop_rule (state self.old) compartment register) }
        ensures state { state self.new ≡ state_after (state self.old) (drop_rule (state self.old) compartment register) }
        ensures fixed { fixed self.new ≡ fixed self.old }
        ensures denied { is_ok result ≡ false → self.new ≡ self.old };

    // Makes any call.
    // Kept as it is: a `match`, since each kind of call has operands of its own.
    fn perform(&mut self, call: Call) -> Result<u32, MachineFault>
        ensures answer { result ≡ outcome (perform_rule (fixed self.old) (state self.old) (call_of call)) }
        ensures state { state self.new ≡ state_after (state self.old) (perform_rule (fixed self.old) (state self.old) (call_of call)) }
        ensures fixed { fixed self.new ≡ fixed self.old }
        ensures denied { is_ok result ≡ false → self.new ≡ self.old }
    {
        match call {
            Call::Grant {
                compartment,
                register,
                granules,
            } => self.grant(compartment, register, granules),
            Call::Derive {
                compartment,
                register,
                source,
                offset,
                length,
                permissions,
            } => self.derive(compartment, register, source, offset, length, permissions),
            Call::Getb {
                compartment,
                register,
                offset,
            } => self.getb(compartment, register, offset),
            Call::Putb {
                compartment,
                register,
                offset,
                value,
            } => self.putb(compartment, register, offset, value),
            Call::Putc {
                compartment,
                register,
                offset,
                source,
            } => self.putc(compartment, register, offset, source),
            Call::Getc {
                compartment,
                register,
                offset,
                target,
            } => self.getc(compartment, register, offset, target),
            Call::Give {
                compartment,
                register,
                recipient,
                target,
            } => self.give(compartment, register, recipient, target),
            Call::Drop {
                compartment,
                register,
            } => self.drop(compartment, register),
        }
    }
}
