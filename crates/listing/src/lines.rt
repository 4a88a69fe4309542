// The lines of a stretch.
ghost use Rattle.std.specs.Prelude.{◌≤◌, ◌-◌};
ghost use Rattle.text_writing.specs.Written.{Writes};
ghost use Rattle.listing.specs.Lines.{lines, unknown, texts};

use crate::line::{line_size, put_line, put_unknown};
use memory::Memory;
use text_writing::Writer;

// Bytes that are no whole instruction, up to the end.
fn put_rest(out: &mut Writer, memory: &Memory, start: usize, end: usize)
    requires { (start ≤ end) × (end ≤ 65536) }
    ensures { Writes out.old (texts (unknown memory.now start (end - start))) out.new }
{
    for address in start..end {
        put_unknown(out, memory, address as u16);
    }
}

// The lines up to the end.
pub(crate) fn put_lines(out: &mut Writer, memory: &Memory, first: usize, end: usize)
    requires { (first ≤ end) × (end ≤ 65536) }
    ensures { Writes out.old (texts (lines memory.now first (end - first) 0)) out.new }
{
    let mut address = first;
    // no `for`: a line takes as many bytes as its instruction, so no range has the addresses of the lines
    while address < end {
        let size = line_size(memory[address]) as usize;
        if end < address + size {
            put_rest(out, memory, address, end);
            return;
        }
        put_line(out, memory, address as u16);
        address += size;
    }
}
