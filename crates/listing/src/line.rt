// One line of the listing.
ghost use Rattle.std.specs.Prelude.{◌≤◌, ◌<◌, ◌≡◌, None, get_or};
ghost use Rattle.instruction.specs.Opcodes.{decoded};
ghost use Rattle.text_writing.specs.Written.{Writes};
ghost use Rattle.listing.specs.Lines.{bytes_from, byte_fields, size as Lines·size, words, line_of, text as Lines·text, instruction_at};

use listing_operands::put_operand;
use memory::{Address, Memory, get_byte};
use opcode_table::{decode, name_of};
use text_writing::Writer;

// How many bytes the line of an opcode takes.
pub(crate) fn line_size(opcode: u8) -> u16
    ensures value { result ≡ Lines·size (decoded opcode) }
    ensures result_nonzero { (0 < result) × (result ≤ 3) }
{
    match decode(opcode) {
        None => 1,
        Some(entry) => 1 + entry.mode.extra_bytes(),
    }
}

// So many bytes from an address on, with a space before each.
fn put_bytes(out: &mut Writer, memory: &Memory, start: u16, count: u16)
    ensures { Writes out.old (byte_fields (bytes_from memory.now start count)) out.new }
{
    for i in 0..count {
        out.put_spaced_hex2(get_byte(memory, Address(start).plus(i)));
    }
}

// The name of an opcode at an address, and its operand.
fn put_words(out: &mut Writer, opcode: u8, memory: &Memory, address: u16)
    ensures { Writes out.old (words memory.now address (decoded opcode)) out.new }
{
    out.put_text(&name_of(opcode));
    if let Some(entry) = decode(opcode) {
        put_operand(out, entry.mode, memory, address);
    }
}

// The most characters that an instruction has: its address, three bytes, its name and an operand as `($FF),Y`.
pub const LONGEST_INSTRUCTION: usize = 25;

// The line of what stands at an address, but for its end.
pub fn put_instruction(out: &mut Writer, memory: &Memory, address: u16)
    ensures { Writes out.old (instruction_at memory.now address) out.new }
{
    let opcode = get_byte(memory, Address(address));
    out.put_hex4(address);
    put_bytes(out, memory, address, line_size(opcode));
    out.put_byte(b' ');
    put_words(out, opcode, memory, address);
}

// Its line.
pub(crate) fn put_line(out: &mut Writer, memory: &Memory, address: u16)
    ensures { Writes out.old (Lines·text (line_of memory.now address (decoded (get_or memory.now address 0)))) out.new }
{
    put_instruction(out, memory, address);
    out.put_byte(b'\n');
}

// The line of a byte that is no whole instruction.
pub(crate) fn put_unknown(out: &mut Writer, memory: &Memory, address: u16)
    ensures { Writes out.old (Lines·text (line_of memory.now address None)) out.new }
{
    out.put_hex4(address);
    put_bytes(out, memory, address, 1);
    out.put_text(b" ???\n");
}
