ghost use Rattle.machine.specs.Model.{empty_registers};
ghost use Rattle.std.specs.Prelude.{◌≡◌};

use crate::registers::Registers;
use allocator::allocator::Allocator;
use memory::tagged_memory::TaggedMemory;

// Eight compartments over a memory and an allocator.
#[derive(Drop)]
pub struct Machine<M: TaggedMemory, B: Allocator> {
    pub(crate) memory: M,
    pub(crate) allocator: B,
    pub(crate) registers: Registers,
}

impl<M: TaggedMemory, B: Allocator> Machine<M, B> {
    // A machine over two parts, with empty registers.
    pub fn new(memory: M, allocator: B) -> Machine<M, B>
        ensures memory { result.memory ≡ memory }
        ensures allocator { result.allocator ≡ allocator }
        ensures registers { result.registers ≡ empty_registers }
    {
        Machine {
            memory,
            allocator,
            registers: Registers::empty(),
        }
    }
}
