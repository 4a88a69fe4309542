// From paper tape to Intel HEX and back, record for record.
#![tactic(auto)]

ghost use Rattle.std.specs.Prelude.{◌≡◌, ◌+◌, ◌*◌, ◌<◌, ◌≤◌, IfOk, length, take, drop};
ghost use Rattle.text_writing.specs.Written.{Writes};
ghost use Rattle.tape_loading.specs.Inner.Formats.{contents_of};
ghost use Rattle.tape_moving.specs.Moving.{numbers_of, with_text, tape_to_hex, hex_to_tape, moved_from};
ghost use Rattle.tape_moving.specs.Inner.Lines.{sum_from, tape_line, hex_line, line_of, end_of, moved};
ghost use Rattle.tape_moving.specs.Inner.Passing.{Passed};

use laws::answers::{NOT_REFUSED, Refusal};
use tape_loading::{Fault, Format, Next, Reach, Verdict, next_record};
use tape_paper::put_end;
use tape_records::{Head, put_head, read_sum};
use text_reading::rest;
use text_writing::Writer;

// How far the given text is good, which is all of it, and the length of the new one at the start of the buffer.
#[derive(Clone, Copy)]
pub struct Moved {
    pub reach: Reach,
    pub size: usize,
}

// The numbers of a move, as C and the programs' statuses have them: the answer, the length of the new text, 0 if it is refused,
// and how far the given one is good. The answer is 10 if that is good and the buffer is too short.
pub fn numbers_of(moved: Result<Moved, Fault>) -> (u8, usize, Reach)
    ensures { result ≡ numbers_of moved }
{
    match moved {
        Ok(moved) => (NOT_REFUSED, moved.size, moved.reach),
        Err(fault) => (fault.reason.into(), 0, fault.reach),
    }
}

// The sum of a record's count, address and data, which goes round at 65,536. The data stand after the text's first character.
fn sum_record(text: &[u8], head: Head) -> u16
    ensures { result ≡ sum_from head.count head.address (drop 1 text.now) }
{
    match read_sum(text, head.count as u16) {
        Some(data) => head.sum().wrapping_add(data.value),
        None => head.sum(),
    }
}

// A tape's data record by its parts, the data as they stand in the text that is moved, and CR LF.
fn put_tape_record(out: &mut Writer, head: Head, digits: &[u8], sum: u16)
    ensures { Writes out.old (tape_line head.count head.address digits.now sum) out.new }
{
    put_head(out, b';', head);
    out.put_text(digits);
    out.put_hex4(sum);
    out.put_text(b"\r\n");
}

// The same in HEX, which has a type before the data, and a check byte that makes the sum up to 0 modulo 256.
fn put_hex_record(out: &mut Writer, head: Head, digits: &[u8], sum: u16)
    ensures { Writes out.old (hex_line head.count head.address digits.now sum) out.new }
{
    let check = (256 - sum % 256) % 256;
    put_head(out, b':', head);
    out.put_hex2(0);
    out.put_text(digits);
    out.put_hex2(check as u8);
    out.put_text(b"\r\n");
}

fn put_record(out: &mut Writer, format: Format, head: Head, digits: &[u8], sum: u16)
    ensures { Writes out.old (line_of format head.count head.address digits.now sum) out.new }
{
    match format {
        Format::Tape => put_tape_record(out, head, digits, sum),
        Format::Hex => put_hex_record(out, head, digits, sum),
    }
}

// The end record, of so many data records, and CR LF.
fn put_last(out: &mut Writer, format: Format, number: u16)
    ensures { Writes out.old (end_of format number) out.new }
{
    match format {
        Format::Tape => put_end(out, number),
        Format::Hex => out.put_text(b":00000001FF\r\n"),
    }
}

// The data record whose data stand at a place of the text.
fn move_record(out: &mut Writer, to: Format, head: Head, text: &[u8], place: usize)
    requires { (0 < place) × (place + 2 * head.count ≤ length text.now) }
    ensures { Writes out.old
        (line_of to head.count head.address (take (2 * head.count) (drop place text.now)) (sum_from head.count head.address (drop place text.now)))
        out.new }
{
    let sum = sum_record(rest(text, place - 1), head);
    let end = place + 2 * (head.count as usize);
    put_record(out, to, head, &text[place..end], sum);
}

// Writes the records of a text in a format, and the end record if all is good. A loop as in tape_loading.
fn put_records(out: &mut Writer, from: Format, to: Format, text: &[u8]) -> Verdict
    ensures { Passed to text.now (contents_of from text.now) out.old out.new result }
{
    let mut at: usize = 0;
    let mut before: u64 = 0;
    loop {
        match next_record(from, text, at, before)? {
            Next::End(reach) => {
                put_last(out, to, before as u16);
                return Ok(reach);
            }
            Next::Data {
                head,
                digits,
                after,
            } => {
                move_record(out, to, head, text, digits);
                at = after;
                before += 1;
            }
        }
    }
}

// Moves a text. It is written twice, the first time to where nothing is kept, so that a bad text or a short buffer writes
// nothing.
fn deliver(from: Format, to: Format, text: &[u8], out: &mut [u8]) -> Result<Moved, Fault>
    ensures out_after { with_text result out.new ≡ moved from to text.now out.old }
    ensures size_in_bounds { IfOk result (λ moved. moved.size ≤ length out.old) }
{
    let mut nowhere = [0u8; 0];
    let mut measure = Writer::new(&mut nowhere);
    let reach = put_records(&mut measure, from, to, text)?;
    if out.len() < measure.place() {
        return Err(Fault {
            reason: Refusal::NoRoom,
            reach,
        });
    }
    let mut written = Writer::new(out);
    let reach = put_records(&mut written, from, to, text)?;
    let size = written.place();
    Ok(Moved { reach, size })
}

// Moves a paper tape to Intel HEX.
#[tactic(auto, unfolding(crate::specs::Moving::tape_to_hex, crate::specs::Inner::Lines::moved, tape_paper::specs::Tapes::tape_of))]
pub fn tape_to_hex(text: &[u8], out: &mut [u8]) -> Result<Moved, Fault>
    ensures out_after { with_text result out.new ≡ tape_to_hex text.now out.old }
    ensures size_in_bounds { IfOk result (λ moved. moved.size ≤ length out.old) }
{
    deliver(Format::Tape, Format::Hex, text, out)
}

// Moves Intel HEX to a paper tape.
#[tactic(auto, unfolding(crate::specs::Moving::hex_to_tape, crate::specs::Inner::Lines::moved, tape_intel::specs::IntelHex::hex_of))]
pub fn hex_to_tape(text: &[u8], out: &mut [u8]) -> Result<Moved, Fault>
    ensures out_after { with_text result out.new ≡ hex_to_tape text.now out.old }
    ensures size_in_bounds { IfOk result (λ moved. moved.size ≤ length out.old) }
{
    deliver(Format::Hex, Format::Tape, text, out)
}

// Moves a text of a format to the other one.
pub fn move_text(from: Format, text: &[u8], out: &mut [u8]) -> Result<Moved, Fault>
    ensures out_after { with_text result out.new ≡ moved_from from text.now out.old }
    ensures size_in_bounds { IfOk result (λ moved. moved.size ≤ length out.old) }
{
    match from {
        Format::Tape => tape_to_hex(text, out),
        Format::Hex => hex_to_tape(text, out),
    }
}
