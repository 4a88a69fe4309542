// The instructions that use the stack: subroutines, interrupts, pushes and pulls, after execute_instruction of cpu.rs; and the
// service of a line. Registers, mode and memory stay three parameters: the memory is lent, to some to read and to others to write,
// and a struct of them would be two.
#![tactic(auto)]

mod bytes; // bytes.rt: a byte and an address on the stack

ghost use Rattle.std.specs.Prelude.{◌≡◌, ◌+◌, ◌<◌};
ghost use Rattle.manual.specs.Micro.{Gives};
ghost use Rattle.manual.specs.Interrupts.{enter, served};
ghost use Rattle.manual.specs.Instructions.{perform};

use addressing::{advanced, operand_at};
use alu::load_accumulator;
use bytes::{pull_address, pull_from_stack, push_address, push_on_stack};
use instruction::{AddressingMode, Instruction};
use manual::{Effect, IRQ_VECTOR, leaves, leaves_at};
use memory::{Address, Memory, address_from_bytes, get_byte, read_address};
use registers::{Registers, Status};

// JSR: the high byte of the operand is read after the return address is pushed, which may have changed it.
#[tactic(auto, using(manual::proofs::Lemmas::InstructionLaws::call_gives))]
pub fn jump_to_subroutine(mode: AddressingMode, registers: Registers, memory: &mut Memory) -> Effect
    ensures { Gives (perform Instruction.JSR mode registers) memory.old result memory.new }
{
    let low = get_byte(memory, operand_at(registers, 1));
    let pushed = push_address(registers, memory, operand_at(registers, 2));
    let high = get_byte(memory, operand_at(registers, 2));
    let goal = address_from_bytes([low, high]);
    leaves_at(goal.0, pushed.with_counter(goal.0), 0)
}

// RTS: the counter goes one past the address that is pulled.
#[tactic(auto, using(manual::proofs::Lemmas::InstructionLaws::return_gives))]
pub fn return_from_subroutine(mode: AddressingMode, registers: Registers, memory: &Memory) -> Effect
    ensures { Gives (perform Instruction.RTS mode registers) memory.now result memory.now }
{
    let pulled = pull_address(registers, memory);
    let at = pulled.at;
    let after = pulled.registers.with_counter(at.plus(1).0);
    leaves(after, 0)
}

// RTI: the status is pulled, then the counter.
#[tactic(auto, using(manual::proofs::Lemmas::InstructionLaws::return_from_interrupt_gives))]
pub fn return_from_interrupt(mode: AddressingMode, registers: Registers, memory: &Memory) -> Effect
    ensures { Gives (perform Instruction.RTI mode registers) memory.now result memory.now }
{
    let status = pull_from_stack(registers, memory);
    let back = pull_address(status.registers, memory);
    let after = back
        .registers
        .with_status(Status::pulled(status.byte))
        .with_counter(back.at.0);
    leaves(after, 0)
}

// The way into an interrupt: a return address and a status byte are pushed, I is set, and the counter goes through a vector.
fn enter(
    back: Address,
    byte: u8,
    vector: u16,
    registers: Registers,
    memory: &mut Memory,
) -> Registers
    requires { vector + 1 < 65536 }
    ensures { Gives (enter back.0 byte vector registers) memory.old result memory.new }
{
    let addressed = push_address(registers, memory, back);
    let pushed = push_on_stack(addressed, memory, byte);
    let goal = address_from_bytes(read_address(memory, Address(vector), Address(vector + 1)));
    let status = pushed.status.with_disable(true);
    pushed.with_status(status).with_counter(goal.0)
}

// A line is served: the way back is to the instruction that was not yet begun, and bit 4 of the status byte is clear.
pub fn serve(vector: u16, registers: Registers, memory: &mut Memory) -> Registers
    requires { vector + 1 < 65536 }
    ensures { Gives (served vector registers) memory.old result memory.new }
{
    enter(
        Address(registers.counter),
        registers.status.served(),
        vector,
        registers,
        memory,
    )
}

// BRK: the way back is past its second byte.
pub fn force_break(mode: AddressingMode, registers: Registers, memory: &mut Memory) -> Effect
    ensures { Gives (perform Instruction.BRK mode registers) memory.old result memory.new }
{
    let after = enter(
        operand_at(registers, 2),
        registers.status.pushed(),
        IRQ_VECTOR,
        registers,
        memory,
    );
    leaves(after, 0)
}

// PHA.
pub fn push_accumulator(mode: AddressingMode, registers: Registers, memory: &mut Memory) -> Effect
    ensures { Gives (perform Instruction.PHA mode registers) memory.old result memory.new }
{
    let after = advanced(
        mode,
        push_on_stack(registers, memory, registers.accumulator),
    );
    leaves(after, 0)
}

// PHP.
pub fn push_status(mode: AddressingMode, registers: Registers, memory: &mut Memory) -> Effect
    ensures { Gives (perform Instruction.PHP mode registers) memory.old result memory.new }
{
    let after = advanced(
        mode,
        push_on_stack(registers, memory, registers.status.pushed()),
    );
    leaves(after, 0)
}

// PLA: N and Z show the byte.
#[tactic(auto, using(manual::proofs::Lemmas::InstructionLaws::pull_accumulator_gives))]
pub fn pull_accumulator(mode: AddressingMode, registers: Registers, memory: &Memory) -> Effect
    ensures { Gives (perform Instruction.PLA mode registers) memory.now result memory.now }
{
    let pulled = pull_from_stack(registers, memory);
    let after = load_accumulator(advanced(mode, pulled.registers), pulled.byte);
    leaves(after, 0)
}

// PLP.
#[tactic(auto, using(manual::proofs::Lemmas::InstructionLaws::pull_status_gives))]
pub fn pull_status(mode: AddressingMode, registers: Registers, memory: &Memory) -> Effect
    ensures { Gives (perform Instruction.PLP mode registers) memory.now result memory.now }
{
    let pulled = pull_from_stack(registers, memory);
    let after = advanced(mode, pulled.registers).with_status(Status::pulled(pulled.byte));
    leaves(after, 0)
}
