ghost use Rattle.machine.specs.Model.{Fixed, State};
ghost use Rattle.quarantine.specs.declared.sweep.Sweep.TheVariants.{Idle as SweepIdle};
ghost use Rattle.std.specs.Prelude.{[], length};

use crate::checks::{byte_at, check_permission, granule_at};
use crate::compartment_machine::CompartmentMachine;
use crate::fault::MachineFault;
use crate::machine::Machine;
use crate::operand::Operand;
use crate::slot::Slot;
use allocator::allocator::Allocator;
use authority::bounds::Bounds;
use authority::capability::Capability;
use authority::meet::Pair;
use authority::numbers::Numbers;
use authority::permission::Permission;
use authority::permissions::{ALL_PERMISSIONS, Permissions};
use memory::tagged_memory::TaggedMemory;

// Kept as they are: the checks in front of each call, since their order is the order of the denials.
impl<M: TaggedMemory, B: Allocator> CompartmentMachine for Machine<M, B> {
    ghost fixed = { λ m. record { memory_granules = length (M.TaggedMemory.tags m.memory); allocator_granules = length (B.Allocator.cells m.allocator); most = B.Allocator.most m.allocator; place = B.Allocator.place; lawful = B.Allocator.lawful } };

    ghost state = { λ m. record { registers = m.registers; bytes = M.TaggedMemory.bytes m.memory; tags = M.TaggedMemory.tags m.memory; cells = B.Allocator.cells m.allocator; mark = B.Allocator.mark m.allocator; waiting = []; painted = []; sweep = SweepIdle } };

    fn grant(
        &mut self,
        compartment: u32,
        register: u32,
        granules: u32,
    ) -> Result<u32, MachineFault> {
        let slot = Slot::of(compartment, register)?;
        let granules = Operand::of(granules)?;
        if granules.value == 0 {
            return Err(MachineFault::BadNum);
        }
        if self.memory.granules() != self.allocator.granules() {
            return Err(MachineFault::Sizes);
        }
        // Kept: casts, since an operand fits both, and a memory has at most 1,024 granules.
        let base = 16 * self.allocator.allocate(granules.value as usize)? as u32;
        let granted = Capability::new(Numbers {
            base,
            top: base + 16 * granules.value,
            permissions: ALL_PERMISSIONS,
        });
        self.registers.put(slot, granted);
        Ok(base)
    }

    fn derive(
        &mut self,
        compartment: u32,
        register: u32,
        source: u32,
        offset: u32,
        length: u32,
        permissions: u32,
    ) -> Result<u32, MachineFault> {
        let slot = Slot::of(compartment, register)?;
        let source = Slot::of(compartment, source)?;
        let offset = Operand::of(offset)?;
        let length = Operand::of(length)?;
        let second = Permissions::from_number(permissions).ok_or(MachineFault::BadNum)?;
        let held = self.registers.held(source)?;
        let from = held.base() + offset.value;
        let first = Bounds::between(from, from + length.value);
        let derived = held
            .derive(Pair { first, second })
            .ok_or(MachineFault::Nothing)?;
        self.registers.put(slot, Some(derived));
        Ok(derived.length())
    }

    fn getb(&mut self, compartment: u32, register: u32, offset: u32) -> Result<u32, MachineFault> {
        let slot = Slot::of(compartment, register)?;
        let offset = Operand::of(offset)?;
        let held = self.registers.held(slot)?;
        check_permission(held, Permission::Load)?;
        let byte = self.memory.read_byte(byte_at(held, offset)?)?;
        Ok(u32::from(byte))
    }

    fn putb(
        &mut self,
        compartment: u32,
        register: u32,
        offset: u32,
        value: u32,
    ) -> Result<u32, MachineFault> {
        let slot = Slot::of(compartment, register)?;
        let offset = Operand::of(offset)?;
        let value = u8::try_from(value).map_err(|_| MachineFault::BadNum)?;
        let held = self.registers.held(slot)?;
        check_permission(held, Permission::Store)?;
        self.memory.store_byte(byte_at(held, offset)?, value)?;
        Ok(0)
    }

    #[tactic(auto, using(authority::proofs::Making::numbers_back))]
    fn putc(
        &mut self,
        compartment: u32,
        register: u32,
        offset: u32,
        source: u32,
    ) -> Result<u32, MachineFault> {
        let slot = Slot::of(compartment, register)?;
        let source = Slot::of(compartment, source)?;
        let offset = Operand::of(offset)?;
        let held = self.registers.held(slot)?;
        let stored = self.registers.held(source)?;
        check_permission(held, Permission::Store)?;
        check_permission(held, Permission::Capabilities)?;
        let g = granule_at(held, offset)?;
        self.memory.store_capability(g, stored.numbers())?;
        Ok(0)
    }

    fn getc(
        &mut self,
        compartment: u32,
        register: u32,
        offset: u32,
        target: u32,
    ) -> Result<u32, MachineFault> {
        let slot = Slot::of(compartment, register)?;
        let target = Slot::of(compartment, target)?;
        let offset = Operand::of(offset)?;
        let held = self.registers.held(slot)?;
        check_permission(held, Permission::Load)?;
        check_permission(held, Permission::Capabilities)?;
        let g = granule_at(held, offset)?;
        let granule = self.memory.read_granule(g)?;
        if !granule.tagged {
            return Err(MachineFault::NoCap);
        }
        let loaded = Capability::new(granule.numbers).ok_or(MachineFault::NoCap)?;
        self.registers.put(target, Some(loaded));
        Ok(0)
    }

    fn give(
        &mut self,
        compartment: u32,
        register: u32,
        recipient: u32,
        target: u32,
    ) -> Result<u32, MachineFault> {
        let slot = Slot::of(compartment, register)?;
        let target = Slot::of(recipient, target)?;
        let held = self.registers.held(slot)?;
        check_permission(held, Permission::Give)?;
        if self.registers.get(target).is_some() {
            return Err(MachineFault::FullReg);
        }
        self.registers.put(target, Some(held));
        Ok(0)
    }

    fn drop(&mut self, compartment: u32, register: u32) -> Result<u32, MachineFault> {
        let slot = Slot::of(compartment, register)?;
        self.registers.put(slot, None);
        Ok(0)
    }
}
