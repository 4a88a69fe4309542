// A byte and an address on the stack, which is page 01.
ghost use Rattle.std.specs.Prelude.{◌≡◌};
ghost use Rattle.manual.specs.Micro.{Gives};
ghost use Rattle.manual.specs.Stack.{push, pull, push_address, pull_address};

use memory::{Address, Memory, address_from_bytes, get_byte, join, set_byte};
use registers::Registers;

// Stores, then lowers the pointer.
#[tactic(auto, unfolding(manual::specs::Stack::push))]
pub(crate) fn push_on_stack(registers: Registers, memory: &mut Memory, byte: u8) -> Registers
    ensures { Gives (push byte registers) memory.old result memory.new }
{
    let stack = registers.stack;
    set_byte(memory, join(1, stack.0), byte);
    registers.with_stack(stack.decrement())
}

#[derive(Clone, Copy)]
pub(crate) struct Pulled {
    pub byte: u8,
    pub registers: Registers,
}

// Raises the pointer, then reads.
#[tactic(auto, unfolding(manual::specs::Stack::pull))]
pub(crate) fn pull_from_stack(registers: Registers, memory: &Memory) -> Pulled
    ensures { Gives (pull registers) memory.now (result.byte, result.registers) memory.now }
{
    let stack = registers.stack.increment();
    let after = registers.with_stack(stack);
    Pulled {
        byte: get_byte(memory, join(1, stack.0)),
        registers: after,
    }
}

// The high byte first.
pub(crate) fn push_address(registers: Registers, memory: &mut Memory, at: Address) -> Registers
    ensures { Gives (push_address at.0 registers) memory.old result memory.new }
{
    let after = push_on_stack(registers, memory, at.high());
    push_on_stack(after, memory, at.low())
}

#[derive(Clone, Copy)]
pub(crate) struct PulledAddress {
    pub at: Address,
    pub registers: Registers,
}

// The low byte first.
pub(crate) fn pull_address(registers: Registers, memory: &Memory) -> PulledAddress
    ensures { Gives (pull_address registers) memory.now (result.at.0, result.registers) memory.now }
{
    let first = pull_from_stack(registers, memory);
    let second = pull_from_stack(first.registers, memory);
    let at = address_from_bytes([first.byte, second.byte]);
    let after = second.registers;
    PulledAddress {
        at,
        registers: after,
    }
}
