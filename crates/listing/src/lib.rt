// A listing of a stretch of memory, for the classroom.
#![tactic(auto)]

ghost use Rattle.std.specs.Prelude.{◌≤◌, ◌≡◌, length};
ghost use Rattle.text_writing.specs.Delivered.{numbers_of, with_buffer};
ghost use Rattle.listing.specs.Listing.{listing_into};

use laws::answers::Refusal;
pub use line::{LONGEST_INSTRUCTION, put_instruction};
use lines::put_lines;
use manual::FULL_MEMORY;
use text_writing::Writer;

mod line; // line.rt: one line
mod lines; // lines.rt: the lines of a stretch

// Lists the memory from a first to a last address, and answers the length of the text. The text is written twice, the first time
// to where nothing is kept, so that a buffer that is too short is left as it was.
pub fn list(memory: &[u8], first: u16, last: u16, text: &mut [u8]) -> Result<usize, Refusal>
    ensures text_after { with_buffer result text.new ≡ listing_into memory.now first last text.old }
    ensures size_in_bounds { (numbers_of result).1 ≤ length text.old }
{
    let Some(memory) = memory.as_array::<FULL_MEMORY>() else {
        return Err(Refusal::MemoryNotFull);
    };
    if last < first {
        return Err(Refusal::FirstAboveLast);
    }
    let end = (last as usize) + 1;
    let mut nowhere = [0u8; 0];
    let mut counted = Writer::new(&mut nowhere);
    put_lines(&mut counted, memory, first as usize, end);
    if text.len() < counted.place() {
        return Err(Refusal::NoRoom);
    }
    let mut out = Writer::new(text);
    put_lines(&mut out, memory, first as usize, end);
    Ok(out.place())
}
