// A stretch of memory punched as a paper tape.
#![tactic(auto)]

ghost use Rattle.std.specs.Prelude.{◌≡◌, ◌+◌, ◌%◌, ◌<◌, ◌≤◌, ◌++◌, IfOk, length};
ghost use Rattle.text_writing.specs.Written.{Writes};
ghost use Rattle.text_writing.specs.Delivered.{with_buffer};
ghost use Rattle.tape_records.specs.Records.{total, hexes};
ghost use Rattle.tape_records.specs.Grammar.{newline};
ghost use Rattle.tape_paper.specs.Grammar.{record_text, tape_text};
ghost use Rattle.tape_punching.specs.Punching.{cut, tape_into};

use laws::answers::Refusal;
use manual::FULL_MEMORY;
use tape_paper::put_end;
use tape_records::{Head, put_head};
use text_writing::Writer;

// A sum with some bytes, which goes round at 65,536.
fn sum_bytes(bytes: &[u8], sum: u16) -> u16
    ensures { result ≡ (sum + total bytes.now) % 65536 }
{
    let mut value = sum;
    for &byte in bytes {
        value = value.wrapping_add(byte as u16);
    }
    value
}

// Some bytes, two digits each.
fn put_bytes(out: &mut Writer, bytes: &[u8])
    ensures { Writes out.old (hexes bytes.now) out.new }
{
    out.put_hexes(bytes);
}

// The record of up to 255 bytes, and CR LF.
fn put_record(out: &mut Writer, address: u16, bytes: &[u8])
    requires { length bytes.now < 256 }
    ensures { Writes out.old (record_text address bytes.now ++ newline) out.new }
{
    let head = Head {
        address,
        count: bytes.len() as u8,
    };
    let sum = sum_bytes(bytes, head.sum());
    put_head(out, b';', head);
    put_bytes(out, bytes);
    out.put_hex4(sum);
    out.put_text(b"\r\n");
}

// The tape of a stretch, which begins at an address.
fn put_tape(out: &mut Writer, first: u16, stretch: &[u8])
    requires { first + length stretch.now ≤ 65536 }
    ensures { Writes out.old (tape_text 0 (cut first 0 stretch.now)) out.new }
{
    let mut address = first as usize;
    let mut records: u16 = 0;
    for record in stretch.chunks(24) {
        put_record(out, address as u16, record);
        address += record.len();
        records += 1;
    }
    put_end(out, records);
}

// Punches the memory from a first to a last address. The text is written twice, the first time to where nothing is kept, so
// that a buffer that is too short is left as it was.
pub fn punch(memory: &[u8], first: u16, last: u16, text: &mut [u8]) -> Result<usize, Refusal>
    ensures text_after { with_buffer result text.new ≡ tape_into memory.now first last text.old }
    ensures size_in_bounds { IfOk result (λ size. size ≤ length text.old) }
{
    if memory.len() != FULL_MEMORY {
        return Err(Refusal::MemoryNotFull);
    }
    if last < first {
        return Err(Refusal::FirstAboveLast);
    }
    let end = (last as usize) + 1;
    let stretch = &memory[first as usize..end];
    let mut nowhere = [0u8; 0];
    let mut measure = Writer::new(&mut nowhere);
    put_tape(&mut measure, first, stretch);
    if text.len() < measure.place() {
        return Err(Refusal::NoRoom);
    }
    let mut written = Writer::new(text);
    put_tape(&mut written, first, stretch);
    Ok(written.place())
}
