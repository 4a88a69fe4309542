// A row that keeps the memory as it is, carried out.
ghost use Rattle.std.specs.Prelude.{◌≡◌, false, ◌+◌, ◌≤◌};
ghost use Rattle.instruction.specs.Theorems.Table.{most_extra};
ghost use Rattle.opcode_effects.specs.Inner.Storing.{stores_in};
ghost use Rattle.manual.specs.Micro.{Gives};
ghost use Rattle.manual.specs.Instructions.{perform};
ghost use Rattle.opcode_effects.specs.Inner.Performing.{entry_of, read_entry, performed, fetching, finished};

use crate::{Pending, Row, counted, ticks_of};
use addressing::{advanced, target_of};
use instruction::{AddressingMode, Instruction, ReadOperation};
use manual::{Effect, leaves};
use memory::{Address, Memory, get_byte};
use operations::{branch, internal, jump, modify_accumulator, read};
use registers::{Registers, flag};
use stack::{pull_accumulator, pull_status, return_from_interrupt, return_from_subroutine};

// An instruction that stores nothing; the others are not asked for.
fn execute_keeping(
    instruction: Instruction,
    mode: AddressingMode,
    registers: Registers,
    memory: &Memory,
) -> Effect
    requires { stores_in instruction mode ≡ false }
    ensures { Gives (perform instruction mode registers) memory.now result memory.now }
{
    match instruction {
        Instruction::Read(operation) => read(operation, mode, registers, memory),
        Instruction::Modify(operation) => modify_accumulator(operation, mode, registers),
        Instruction::Branch(operation) => branch(operation, mode, registers, memory),
        Instruction::Internal(operation) => internal(operation, mode, registers),
        Instruction::JMP => jump(mode, registers, memory),
        Instruction::PLA => pull_accumulator(mode, registers, memory),
        Instruction::PLP => pull_status(mode, registers, memory),
        Instruction::RTI => return_from_interrupt(mode, registers, memory),
        Instruction::RTS => return_from_subroutine(mode, registers, memory),
        _ => leaves(registers, 0),
    }
}

// A row that keeps the memory as it is. Where it is called its operation and its mode are fixed, so that the compiler leaves the rest
// out.
pub fn keeps(
    operation: Instruction,
    mode: AddressingMode,
    cycles: u8,
    registers: Registers,
    memory: &Memory,
) -> Row
    requires { (cycles + most_extra operation ≤ 7)
        × (stores_in operation mode ≡ false) }
    ensures { Gives (performed (entry_of operation mode cycles) registers) memory.now (finished result) memory.now }
{
    counted(cycles, execute_keeping(operation, mode, registers, memory))
}

// The byte that an operation reads, and the registers past it: a page cross is charged.
fn fetched(mode: AddressingMode, cycles: u8, registers: Registers, memory: &Memory) -> Pending
    requires { cycles ≤ 6 }
    ensures { Gives (fetching mode cycles registers) memory.now result memory.now }
{
    let target = target_of(mode, registers, memory);
    let value = get_byte(memory, Address(target.address));
    let past = advanced(mode, registers);
    Pending {
        registers: past,
        ticks: ticks_of(cycles, flag(target.crossed)),
        first: target.first,
        value,
    }
}

// A row of ADC.
pub fn adds(mode: AddressingMode, cycles: u8, registers: Registers, memory: &Memory) -> Row
    requires { cycles ≤ 6 }
    ensures { Gives (performed (read_entry ReadOperation.ADC mode cycles) registers) memory.now (finished result) memory.now }
{
    Row::Adding(fetched(mode, cycles, registers, memory))
}

// A row of SBC.
pub fn subtracts(mode: AddressingMode, cycles: u8, registers: Registers, memory: &Memory) -> Row
    requires { cycles ≤ 6 }
    ensures { Gives (performed (read_entry ReadOperation.SBC mode cycles) registers) memory.now (finished result) memory.now }
{
    Row::Subtracting(fetched(mode, cycles, registers, memory))
}
