// The operations and the addressing modes by number: what each number stands for. The arrays of the opcode table name them so.
#![tactic(auto)]

ghost use Rattle.std.specs.Prelude.{◌≡◌};
ghost use Rattle.opcode_numbers.specs.Inner.Operations.{mode_at, operation_at};

use instruction::{
    AddressingMode, BranchOperation, Instruction, InternalOperation, ModifyOperation,
    ReadOperation, StoreOperation,
};
use number::*;

pub mod number; // number.rt: the numbers

// The operation of a number; NOP for a number that stands for none.
#[tactic(auto, unfolding(crate::specs::Inner::Operations::operation_at, crate::specs::Inner::Operations::operations))]
pub fn operation_at(number: u8) -> Instruction
    ensures { result ≡ operation_at number }
{
    match number {
        ADC => Instruction::Read(ReadOperation::ADC),
        AND => Instruction::Read(ReadOperation::AND),
        ASL => Instruction::Modify(ModifyOperation::ASL),
        BCC => Instruction::Branch(BranchOperation::BCC),
        BCS => Instruction::Branch(BranchOperation::BCS),
        BEQ => Instruction::Branch(BranchOperation::BEQ),
        BIT => Instruction::Read(ReadOperation::BIT),
        BMI => Instruction::Branch(BranchOperation::BMI),
        BNE => Instruction::Branch(BranchOperation::BNE),
        BPL => Instruction::Branch(BranchOperation::BPL),
        BRK => Instruction::BRK,
        BVC => Instruction::Branch(BranchOperation::BVC),
        BVS => Instruction::Branch(BranchOperation::BVS),
        CLC => Instruction::Internal(InternalOperation::CLC),
        CLD => Instruction::Internal(InternalOperation::CLD),
        CLI => Instruction::Internal(InternalOperation::CLI),
        CLV => Instruction::Internal(InternalOperation::CLV),
        CMP => Instruction::Read(ReadOperation::CMP),
        CPX => Instruction::Read(ReadOperation::CPX),
        CPY => Instruction::Read(ReadOperation::CPY),
        DEC => Instruction::Modify(ModifyOperation::DEC),
        DEX => Instruction::Internal(InternalOperation::DEX),
        DEY => Instruction::Internal(InternalOperation::DEY),
        EOR => Instruction::Read(ReadOperation::EOR),
        INC => Instruction::Modify(ModifyOperation::INC),
        INX => Instruction::Internal(InternalOperation::INX),
        INY => Instruction::Internal(InternalOperation::INY),
        JMP => Instruction::JMP,
        JSR => Instruction::JSR,
        LDA => Instruction::Read(ReadOperation::LDA),
        LDX => Instruction::Read(ReadOperation::LDX),
        LDY => Instruction::Read(ReadOperation::LDY),
        LSR => Instruction::Modify(ModifyOperation::LSR),
        NOP => Instruction::Internal(InternalOperation::NOP),
        ORA => Instruction::Read(ReadOperation::ORA),
        PHA => Instruction::PHA,
        PHP => Instruction::PHP,
        PLA => Instruction::PLA,
        PLP => Instruction::PLP,
        ROL => Instruction::Modify(ModifyOperation::ROL),
        ROR => Instruction::Modify(ModifyOperation::ROR),
        RTI => Instruction::RTI,
        RTS => Instruction::RTS,
        SBC => Instruction::Read(ReadOperation::SBC),
        SEC => Instruction::Internal(InternalOperation::SEC),
        SED => Instruction::Internal(InternalOperation::SED),
        SEI => Instruction::Internal(InternalOperation::SEI),
        STA => Instruction::Store(StoreOperation::STA),
        STX => Instruction::Store(StoreOperation::STX),
        STY => Instruction::Store(StoreOperation::STY),
        TAX => Instruction::Internal(InternalOperation::TAX),
        TAY => Instruction::Internal(InternalOperation::TAY),
        TSX => Instruction::Internal(InternalOperation::TSX),
        TXA => Instruction::Internal(InternalOperation::TXA),
        TXS => Instruction::Internal(InternalOperation::TXS),
        TYA => Instruction::Internal(InternalOperation::TYA),
        _ => Instruction::Internal(InternalOperation::NOP),
    }
}

// The addressing mode of a number; implied for a number that stands for none.
#[tactic(auto, unfolding(crate::specs::Inner::Operations::mode_at, crate::specs::Inner::Operations::modes))]
pub fn mode_at(number: u8) -> AddressingMode
    ensures { result ≡ mode_at number }
{
    match number {
        ACCUMULATOR => AddressingMode::Accumulator,
        IMPLIED => AddressingMode::Implied,
        IMMEDIATE => AddressingMode::Immediate,
        ZERO_PAGE => AddressingMode::ZeroPage,
        ZERO_PAGE_X => AddressingMode::ZeroPageX,
        ZERO_PAGE_Y => AddressingMode::ZeroPageY,
        RELATIVE => AddressingMode::Relative,
        ABSOLUTE => AddressingMode::Absolute,
        ABSOLUTE_X => AddressingMode::AbsoluteX,
        ABSOLUTE_Y => AddressingMode::AbsoluteY,
        BUGGY_INDIRECT => AddressingMode::BuggyIndirect,
        INDEXED_INDIRECT_X => AddressingMode::IndexedIndirectX,
        INDIRECT_INDEXED_Y => AddressingMode::IndirectIndexedY,
        _ => AddressingMode::Implied,
    }
}
