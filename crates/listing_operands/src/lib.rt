// How the manual writes an operand, with the space before it.
#![tactic(auto)]

ghost use Rattle.std.specs.Prelude.{◌≡◌};
ghost use Rattle.text_writing.specs.Written.{Writes};
ghost use Rattle.listing_operands.specs.Operands.{operand};
ghost use Rattle.listing_operands.specs.Inner.Patterns.{pattern_of, stands_for, filled};

use arithmetic::branch_target;
use instruction::AddressingMode;
use memory::{Address, Memory, get_byte, join};
use text_writing::Writer;

// The notation of a mode: b stands for the byte after the opcode, w for the word there, and t for a branch's target.
#[tactic(auto, unfolding(crate::specs::Inner::Patterns::pattern_of, crate::specs::Operands::written))]
fn pattern(mode: AddressingMode) -> &'static [u8]
    ensures { result.now ≡ pattern_of mode }
{
    match mode {
        AddressingMode::Accumulator => b" A",
        AddressingMode::Implied => b"",
        AddressingMode::Immediate => b" #$b",
        AddressingMode::ZeroPage => b" $b",
        AddressingMode::ZeroPageX => b" $b,X",
        AddressingMode::ZeroPageY => b" $b,Y",
        AddressingMode::Relative => b" $t",
        AddressingMode::Absolute => b" $w",
        AddressingMode::AbsoluteX => b" $w,X",
        AddressingMode::AbsoluteY => b" $w,Y",
        AddressingMode::BuggyIndirect => b" ($w)",
        AddressingMode::IndexedIndirectX => b" ($b,X)",
        AddressingMode::IndirectIndexedY => b" ($b),Y",
    }
}

// What the letters of a pattern stand for.
#[derive(Clone, Copy)]
struct Numbers {
    byte: u8,
    word: u16,
    target: u16,
}

impl Numbers {
    // One character of a pattern, or what it stands for.
    fn put_character(self, out: &mut Writer, character: u8)
        ensures { Writes out.old (stands_for self.byte self.word self.target character) out.new }
    {
        match character {
            b'b' => out.put_hex2(self.byte),
            b'w' => out.put_hex4(self.word),
            b't' => out.put_hex4(self.target),
            itself => out.put_byte(itself),
        }
    }

    // A pattern with its numbers.
    fn put_pattern(self, out: &mut Writer, pattern: &[u8])
        ensures { Writes out.old (filled self.byte self.word self.target pattern.now) out.new }
    {
        for &character in pattern {
            self.put_character(out, character);
        }
    }
}

// The operand of an instruction at an address.
pub fn put_operand(out: &mut Writer, mode: AddressingMode, memory: &Memory, address: u16)
    ensures { Writes out.old (operand mode memory.now address) out.new }
{
    let byte = get_byte(memory, Address(address).plus(1));
    let after = Address(address).plus(2);
    let word = join(get_byte(memory, after), byte).0;
    let numbers = Numbers {
        byte,
        word,
        target: branch_target(after.0, byte),
    };
    numbers.put_pattern(out, pattern(mode));
}
