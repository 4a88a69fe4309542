// The names of the operations.
ghost use Rattle.std.specs.Prelude.{◌≡◌};
ghost use Rattle.instruction.specs.Opcodes.{decoded};
ghost use Rattle.opcode_table.specs.Names.{name_of};
ghost use Rattle.opcode_table.specs.Inner.NameTable.{names as NameTable·names};

use crate::table;

// Three letters for each operation, by number.
// By number, and no `match` on the operation: docs/RULES.md names the form, a constant table of 56 three-byte names.
const NAMES: [[u8; 3]; 56] = [
    *b"ADC", *b"AND", *b"ASL", *b"BCC", *b"BCS", *b"BEQ", *b"BIT", *b"BMI", *b"BNE", *b"BPL",
    *b"BRK", *b"BVC", *b"BVS", *b"CLC", *b"CLD", *b"CLI", *b"CLV", *b"CMP", *b"CPX", *b"CPY",
    *b"DEC", *b"DEX", *b"DEY", *b"EOR", *b"INC", *b"INX", *b"INY", *b"JMP", *b"JSR", *b"LDA",
    *b"LDX", *b"LDY", *b"LSR", *b"NOP", *b"ORA", *b"PHA", *b"PHP", *b"PLA", *b"PLP", *b"ROL",
    *b"ROR", *b"RTI", *b"RTS", *b"SBC", *b"SEC", *b"SED", *b"SEI", *b"STA", *b"STX", *b"STY",
    *b"TAX", *b"TAY", *b"TSX", *b"TXA", *b"TXS", *b"TYA",
];

// The table of names, with the proof that it is one.
fn names() -> [[u8; 3]; 56]
    ensures { result ≡ NameTable·names }
{
    NAMES
}

// The name of an opcode's operation, and ??? if the opcode is not defined.
pub fn name_of(opcode: u8) -> [u8; 3]
    ensures { result ≡ name_of (decoded opcode) }
{
    let opcodes = table();
    let operations = opcodes.operations;
    let number = operations[opcode as usize];
    if number < 56 {
        let names = names();
        return names[number as usize];
    }
    *b"???"
}
