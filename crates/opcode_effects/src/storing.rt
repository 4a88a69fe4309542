// A row that stores, carried out.
ghost use Rattle.std.specs.Prelude.{◌≡◌, true, ◌+◌, ◌≤◌};
ghost use Rattle.instruction.specs.Theorems.Table.{most_extra};
ghost use Rattle.opcode_effects.specs.Inner.Storing.{stores_in};
ghost use Rattle.manual.specs.Micro.{Gives};
ghost use Rattle.manual.specs.Instructions.{perform};
ghost use Rattle.opcode_effects.specs.Inner.Performing.{entry_of, performed, finished};

use crate::{Row, counted};
use instruction::{AddressingMode, Instruction};
use manual::{Effect, leaves};
use memory::Memory;
use operations::{modify, store};
use registers::Registers;
use stack::{force_break, jump_to_subroutine, push_accumulator, push_status};

// An instruction that stores; the others are not asked for.
fn execute_storing(
    instruction: Instruction,
    mode: AddressingMode,
    registers: Registers,
    memory: &mut Memory,
) -> Effect
    requires { stores_in instruction mode ≡ true }
    ensures { Gives (perform instruction mode registers) memory.old result memory.new }
{
    match instruction {
        Instruction::Store(operation) => store(operation, mode, registers, memory),
        Instruction::Modify(operation) => modify(operation, mode, registers, memory),
        Instruction::BRK => force_break(mode, registers, memory),
        Instruction::JSR => jump_to_subroutine(mode, registers, memory),
        Instruction::PHA => push_accumulator(mode, registers, memory),
        Instruction::PHP => push_status(mode, registers, memory),
        _ => leaves(registers, 0),
    }
}

// The row.
pub fn stores(
    operation: Instruction,
    mode: AddressingMode,
    cycles: u8,
    registers: Registers,
    memory: &mut Memory,
) -> Row
    requires { (cycles + most_extra operation ≤ 7)
        × (stores_in operation mode ≡ true) }
    ensures { Gives (performed (entry_of operation mode cycles) registers) memory.old (finished result) memory.new }
{
    counted(cycles, execute_storing(operation, mode, registers, memory))
}
