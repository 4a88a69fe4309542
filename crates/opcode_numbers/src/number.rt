// The numbers of the operations, in the order of their names, and of the addressing modes.

pub const ADC: u8 = 0;

pub const AND: u8 = 1;

pub const ASL: u8 = 2;

pub const BCC: u8 = 3;

pub const BCS: u8 = 4;

pub const BEQ: u8 = 5;

pub const BIT: u8 = 6;

pub const BMI: u8 = 7;

pub const BNE: u8 = 8;

pub const BPL: u8 = 9;

pub const BRK: u8 = 10;

pub const BVC: u8 = 11;

pub const BVS: u8 = 12;

pub const CLC: u8 = 13;

pub const CLD: u8 = 14;

pub const CLI: u8 = 15;

pub const CLV: u8 = 16;

pub const CMP: u8 = 17;

pub const CPX: u8 = 18;

pub const CPY: u8 = 19;

pub const DEC: u8 = 20;

pub const DEX: u8 = 21;

pub const DEY: u8 = 22;

pub const EOR: u8 = 23;

pub const INC: u8 = 24;

pub const INX: u8 = 25;

pub const INY: u8 = 26;

pub const JMP: u8 = 27;

pub const JSR: u8 = 28;

pub const LDA: u8 = 29;

pub const LDX: u8 = 30;

pub const LDY: u8 = 31;

pub const LSR: u8 = 32;

pub const NOP: u8 = 33;

pub const ORA: u8 = 34;

pub const PHA: u8 = 35;

pub const PHP: u8 = 36;

pub const PLA: u8 = 37;

pub const PLP: u8 = 38;

pub const ROL: u8 = 39;

pub const ROR: u8 = 40;

pub const RTI: u8 = 41;

pub const RTS: u8 = 42;

pub const SBC: u8 = 43;

pub const SEC: u8 = 44;

pub const SED: u8 = 45;

pub const SEI: u8 = 46;

pub const STA: u8 = 47;

pub const STX: u8 = 48;

pub const STY: u8 = 49;

pub const TAX: u8 = 50;

pub const TAY: u8 = 51;

pub const TSX: u8 = 52;

pub const TXA: u8 = 53;

pub const TXS: u8 = 54;

pub const TYA: u8 = 55;

pub const ACCUMULATOR: u8 = 0;

pub const IMPLIED: u8 = 1;

pub const IMMEDIATE: u8 = 2;

pub const ZERO_PAGE: u8 = 3;

pub const ZERO_PAGE_X: u8 = 4;

pub const ZERO_PAGE_Y: u8 = 5;

pub const RELATIVE: u8 = 6;

pub const ABSOLUTE: u8 = 7;

pub const ABSOLUTE_X: u8 = 8;

pub const ABSOLUTE_Y: u8 = 9;

pub const BUGGY_INDIRECT: u8 = 10;

pub const INDEXED_INDIRECT_X: u8 = 11;

pub const INDIRECT_INDEXED_Y: u8 = 12;
