// What each class of instruction does that does not use the stack, after execute_instruction of cpu.rs. Registers, mode and memory stay
// three parameters: the memory is lent, to some to read and to others to write, and a struct of them would be two.
#![tactic(auto)]

ghost use Rattle.std.specs.Prelude.{◌≡◌};
ghost use Rattle.instruction.specs.Modes.{operand_bytes};
ghost use Rattle.manual.specs.Micro.{done, Gives};
ghost use Rattle.manual.specs.Branching.{holds};
ghost use Rattle.manual.specs.Instructions.{stored, advanced, perform};

use addressing::{advanced, target_of};
use alu::{apply_internal, apply_read, modify_byte, set_flags_from_modified};
use instruction::{
    AddressingMode, BranchOperation, Instruction, InternalOperation, ModifyOperation,
    ReadOperation, StoreOperation,
};
use manual::{Effect, leaves, leaves_at};
use memory::{Address, Memory, get_byte, set_byte};
use registers::{Registers, Status, flag};

// Loads, logic, ADC, SBC, compares and BIT: a page cross is charged.
#[tactic(auto, using(manual::proofs::Lemmas::InstructionLaws::read_gives))]
pub fn read(
    operation: ReadOperation,
    mode: AddressingMode,
    registers: Registers,
    memory: &Memory,
) -> Effect
    ensures { Gives (perform (Instruction.Read operation) mode registers) memory.now result memory.now }
{
    let target = target_of(mode, registers, memory);
    let byte = get_byte(memory, Address(target.address));
    let after = apply_read(operation, advanced(mode, registers), byte);
    leaves_at(target.first, after, flag(target.crossed))
}

// The register that is stored.
fn stored(operation: StoreOperation, registers: Registers) -> u8
    ensures { result ≡ stored operation registers }
{
    match operation {
        StoreOperation::STA => registers.accumulator,
        StoreOperation::STX => registers.x,
        StoreOperation::STY => registers.y,
    }
}

// Stores: no page cross is charged.
#[tactic(auto, using(manual::proofs::Lemmas::InstructionLaws::store_gives))]
pub fn store(
    operation: StoreOperation,
    mode: AddressingMode,
    registers: Registers,
    memory: &mut Memory,
) -> Effect
    ensures { Gives (perform (Instruction.Store operation) mode registers) memory.old result memory.new }
{
    let target = target_of(mode, registers, memory);
    set_byte(
        memory,
        Address(target.address),
        stored(operation, registers),
    );
    leaves_at(target.first, advanced(mode, registers), 0)
}

// A shift or a rotate of the accumulator, which nothing is read or stored for.
#[tactic(auto, using(manual::proofs::Lemmas::InstructionLaws::modify_accumulator_done))]
pub fn modify_accumulator(
    operation: ModifyOperation,
    mode: AddressingMode,
    registers: Registers,
) -> Effect
    requires { operand_bytes mode ≡ 0 }
    ensures { perform (Instruction.Modify operation) mode registers ≡ done result }
{
    let byte = registers.accumulator;
    let changed = modify_byte(operation, byte, registers.status.carry);
    let after = set_flags_from_modified(operation, advanced(mode, registers), byte);
    leaves(after.with_accumulator(changed), 0)
}

// Shifts, rotates, INC and DEC of a byte in memory: no page cross is charged.
#[tactic(auto, unfolding(manual::specs::Instructions::perform), using(manual::proofs::Lemmas::InstructionLaws::modify_memory_gives))]
pub fn modify(
    operation: ModifyOperation,
    mode: AddressingMode,
    registers: Registers,
    memory: &mut Memory,
) -> Effect
    requires { operand_bytes mode ≡ 0 → ⊥ }
    ensures { Gives (perform (Instruction.Modify operation) mode registers) memory.old result memory.new }
{
    let target = target_of(mode, registers, memory);
    let byte = get_byte(memory, Address(target.address));
    set_byte(
        memory,
        Address(target.address),
        modify_byte(operation, byte, registers.status.carry),
    );
    let after = set_flags_from_modified(operation, advanced(mode, registers), byte);
    leaves_at(target.first, after, 0)
}

// Whether the condition of a branch holds.
fn holds(operation: BranchOperation, status: Status) -> bool
    ensures { result ≡ holds operation status }
{
    match operation {
        BranchOperation::BCC => !status.carry,
        BranchOperation::BCS => status.carry,
        BranchOperation::BEQ => status.zero,
        BranchOperation::BMI => status.negative,
        BranchOperation::BNE => !status.zero,
        BranchOperation::BPL => !status.negative,
        BranchOperation::BVC => !status.overflow,
        BranchOperation::BVS => status.overflow,
    }
}

// Branches. Taken: one cycle more, and another one for another page. One that is not taken does not look at its operand.
pub fn branch(
    operation: BranchOperation,
    mode: AddressingMode,
    registers: Registers,
    memory: &Memory,
) -> Effect
    ensures { Gives (perform (Instruction.Branch operation) mode registers) memory.now result memory.now }
{
    let status = registers.status;
    let past = advanced(mode, registers);
    if holds(operation, status) {
        let target = target_of(mode, registers, memory);
        leaves(past.with_counter(target.address), 1 + flag(target.crossed))
    } else {
        leaves(past, 0)
    }
}

// The operations on registers and flags alone.
#[tactic(auto, unfolding(manual::specs::Instructions::perform))]
pub fn internal(operation: InternalOperation, mode: AddressingMode, registers: Registers) -> Effect
    ensures { perform (Instruction.Internal operation) mode registers ≡ done result }
{
    leaves(apply_internal(operation, advanced(mode, registers)), 0)
}

// JMP.
#[tactic(auto, using(manual::proofs::Lemmas::InstructionLaws::jump_gives))]
pub fn jump(mode: AddressingMode, registers: Registers, memory: &Memory) -> Effect
    ensures { Gives (perform Instruction.JMP mode registers) memory.now result memory.now }
{
    let target = target_of(mode, registers, memory);
    leaves_at(target.first, registers.with_counter(target.address), 0)
}
