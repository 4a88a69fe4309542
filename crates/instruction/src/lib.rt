// The instructions and addressing modes of the NMOS 6502, after instruction.rs.
#![tactic(auto)]

ghost use Rattle.std.specs.Prelude.{◌≤◌, ◌≡◌};
ghost use Rattle.instruction.specs.Modes.{operand_bytes};

// Reads a byte: an operand of the arithmetic unit, or what a register is loaded or compared with.
#[derive(Clone, Copy, PartialEq, Eq)]
pub enum ReadOperation {
    ADC,
    AND,
    BIT,
    CMP,
    CPX,
    CPY,
    EOR,
    LDA,
    LDX,
    LDY,
    ORA,
    SBC,
}

// Stores a register.
#[derive(Clone, Copy, PartialEq, Eq)]
pub enum StoreOperation {
    STA,
    STX,
    STY,
}

// Reads a byte and stores it changed, or changes the accumulator.
#[derive(Clone, Copy, PartialEq, Eq)]
pub enum ModifyOperation {
    ASL,
    DEC,
    INC,
    LSR,
    ROL,
    ROR,
}

#[derive(Clone, Copy, PartialEq, Eq)]
pub enum BranchOperation {
    BCC,
    BCS,
    BEQ,
    BMI,
    BNE,
    BPL,
    BVC,
    BVS,
}

// Works on registers and flags alone.
#[derive(Clone, Copy, PartialEq, Eq)]
pub enum InternalOperation {
    CLC,
    CLD,
    CLI,
    CLV,
    DEX,
    DEY,
    INX,
    INY,
    NOP,
    SEC,
    SED,
    SEI,
    TAX,
    TAY,
    TSX,
    TXA,
    TXS,
    TYA,
}

// The 56 operations, by class.
#[derive(Clone, Copy, PartialEq, Eq)]
pub enum Instruction {
    Read(ReadOperation),
    Store(StoreOperation),
    Modify(ModifyOperation),
    Branch(BranchOperation),
    Internal(InternalOperation),
    BRK,
    JMP,
    JSR,
    PHA,
    PHP,
    PLA,
    PLP,
    RTI,
    RTS,
}

#[derive(Clone, Copy, PartialEq, Eq)]
pub enum AddressingMode {
    Accumulator,
    Implied,
    Immediate,
    ZeroPage,
    ZeroPageX,
    ZeroPageY,
    Relative,
    Absolute,
    AbsoluteX,
    AbsoluteY,
    BuggyIndirect,
    IndexedIndirectX,
    IndirectIndexedY,
}

impl AddressingMode {
    // How many bytes follow the opcode.
    pub fn extra_bytes(self) -> u16
        ensures value { result ≡ operand_bytes self }
        ensures upper_bound { result ≤ 2 }
    {
        match self {
            AddressingMode::Accumulator | AddressingMode::Implied => 0,
            AddressingMode::Immediate
            | AddressingMode::ZeroPage
            | AddressingMode::ZeroPageX
            | AddressingMode::ZeroPageY
            | AddressingMode::Relative
            | AddressingMode::IndexedIndirectX
            | AddressingMode::IndirectIndexedY => 1,
            AddressingMode::Absolute
            | AddressingMode::AbsoluteX
            | AddressingMode::AbsoluteY
            | AddressingMode::BuggyIndirect => 2,
        }
    }
}

// One row of the opcode table.
#[derive(Clone, Copy, PartialEq, Eq)]
pub struct Entry {
    pub instruction: Instruction,
    pub mode: AddressingMode,
    pub cycles: u8,
}
