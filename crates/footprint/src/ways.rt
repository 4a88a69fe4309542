// How what an opcode reads and what it stores to is found, by the columns of the opcode matrix. A match, and no array: the
// compiler would lay an array out anew at each step.
ghost use Rattle.footprint.specs.Inner.Ways.{ReadsBy, StoresBy};

// The byte that a mode leads to. A read lists the operands and pointers before it.
#[derive(Clone, Copy)]
pub(crate) enum Target {
    ZeroPage,
    ZeroPageX,
    ZeroPageY,
    Absolute,
    AbsoluteX,
    AbsoluteY,
    IndexedIndirectX,
    IndirectIndexedY,
}

// What is read after the opcode: a target, with what leads to it; operands and pointers alone; what is pulled; the vector of BRK.
#[derive(Clone, Copy)]
pub(crate) enum Reading {
    Nothing,
    To(Target),
    OneOperand,
    TwoOperands,
    PointerX,
    PointerY,
    JumpIndirect,
    PullOne,
    PullTwo,
    PullThree,
    Vector,
}

// What is stored to: a target, or what is pushed.
#[derive(Clone, Copy)]
pub(crate) enum Storing {
    Nothing,
    To(Target),
    PushOne,
    PushTwo,
    PushThree,
}

// How what an opcode reads is found.
pub(crate) fn reading_way(opcode: u8) -> Reading
    ensures { ReadsBy result opcode }
{
    match opcode {
        0x00 => Reading::Vector,
        0x10 | 0x30 | 0x50 | 0x70 | 0x90 | 0xA0 | 0xB0 | 0xC0 | 0xD0 | 0xE0 | 0xF0 =>
            Reading::OneOperand,
        0x20 => Reading::TwoOperands,
        0x40 => Reading::PullThree,
        0x60 => Reading::PullTwo,
        0x01 | 0x21 | 0x41 | 0x61 | 0xA1 | 0xC1 | 0xE1 => Reading::To(Target::IndexedIndirectX),
        0x11 | 0x31 | 0x51 | 0x71 | 0xB1 | 0xD1 | 0xF1 => Reading::To(Target::IndirectIndexedY),
        0x81 => Reading::PointerX,
        0x91 => Reading::PointerY,
        0xA2 => Reading::OneOperand,
        0x24 | 0xA4 | 0xC4 | 0xE4 => Reading::To(Target::ZeroPage),
        0x84 | 0x94 => Reading::OneOperand,
        0xB4 => Reading::To(Target::ZeroPageX),
        0x05 | 0x25 | 0x45 | 0x65 | 0xA5 | 0xC5 | 0xE5 => Reading::To(Target::ZeroPage),
        0x15 | 0x35 | 0x55 | 0x75 | 0xB5 | 0xD5 | 0xF5 => Reading::To(Target::ZeroPageX),
        0x85 | 0x95 => Reading::OneOperand,
        0x06 | 0x26 | 0x46 | 0x66 | 0xA6 | 0xC6 | 0xE6 => Reading::To(Target::ZeroPage),
        0x16 | 0x36 | 0x56 | 0x76 | 0xD6 | 0xF6 => Reading::To(Target::ZeroPageX),
        0x86 | 0x96 => Reading::OneOperand,
        0xB6 => Reading::To(Target::ZeroPageY),
        0x28 | 0x68 => Reading::PullOne,
        0x09 | 0x29 | 0x49 | 0x69 | 0xA9 | 0xC9 | 0xE9 => Reading::OneOperand,
        0x19 | 0x39 | 0x59 | 0x79 | 0xB9 | 0xD9 | 0xF9 => Reading::To(Target::AbsoluteY),
        0x99 => Reading::TwoOperands,
        0x2C | 0xAC | 0xCC | 0xEC => Reading::To(Target::Absolute),
        0x4C | 0x8C => Reading::TwoOperands,
        0x6C => Reading::JumpIndirect,
        0xBC => Reading::To(Target::AbsoluteX),
        0x0D | 0x2D | 0x4D | 0x6D | 0xAD | 0xCD | 0xED => Reading::To(Target::Absolute),
        0x1D | 0x3D | 0x5D | 0x7D | 0xBD | 0xDD | 0xFD => Reading::To(Target::AbsoluteX),
        0x8D | 0x9D => Reading::TwoOperands,
        0x0E | 0x2E | 0x4E | 0x6E | 0xAE | 0xCE | 0xEE => Reading::To(Target::Absolute),
        0x1E | 0x3E | 0x5E | 0x7E | 0xDE | 0xFE => Reading::To(Target::AbsoluteX),
        0x8E => Reading::TwoOperands,
        0xBE => Reading::To(Target::AbsoluteY),
        _ => Reading::Nothing,
    }
}

// How what it stores to is found.
pub(crate) fn storing_way(opcode: u8) -> Storing
    ensures { StoresBy result opcode }
{
    match opcode {
        0x00 => Storing::PushThree,
        0x20 => Storing::PushTwo,
        0x81 => Storing::To(Target::IndexedIndirectX),
        0x91 => Storing::To(Target::IndirectIndexedY),
        0x84 => Storing::To(Target::ZeroPage),
        0x94 => Storing::To(Target::ZeroPageX),
        0x85 => Storing::To(Target::ZeroPage),
        0x95 => Storing::To(Target::ZeroPageX),
        0x06 | 0x26 | 0x46 | 0x66 | 0x86 | 0xC6 | 0xE6 => Storing::To(Target::ZeroPage),
        0x16 | 0x36 | 0x56 | 0x76 | 0xD6 | 0xF6 => Storing::To(Target::ZeroPageX),
        0x96 => Storing::To(Target::ZeroPageY),
        0x08 | 0x48 => Storing::PushOne,
        0x99 => Storing::To(Target::AbsoluteY),
        0x8C => Storing::To(Target::Absolute),
        0x8D => Storing::To(Target::Absolute),
        0x9D => Storing::To(Target::AbsoluteX),
        0x0E | 0x2E | 0x4E | 0x6E | 0x8E | 0xCE | 0xEE => Storing::To(Target::Absolute),
        0x1E | 0x3E | 0x5E | 0x7E | 0xDE | 0xFE => Storing::To(Target::AbsoluteX),
        _ => Storing::Nothing,
    }
}
