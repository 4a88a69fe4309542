// The records of the KIM-1's paper tape.
#![tactic(auto)]

ghost use Rattle.std.specs.Prelude.{◌+◌, ◌≡◌, [], ◌++◌, length};
ghost use Rattle.text_writing.specs.Written.{Writes};
ghost use Rattle.tape_records.specs.Inner.Items.{told, told_in};
ghost use Rattle.tape_records.specs.Grammar.{newline};
ghost use Rattle.tape_paper.specs.Tapes.{tape_item};
ghost use Rattle.tape_paper.specs.Inner.Items.{told_by};
ghost use Rattle.tape_paper.specs.Grammar.{record_text};

use laws::answers::Refusal;
use tape_records::{Head, Item, Parts, put_head, read_record};
use text_writing::Writer;

// Room for the tape of a full memory in records of one byte, which has 983,038 characters. An array,
// since the project has no heap.
pub fn tape_buffer() -> [u8; 1048576]
    ensures { 1048576 ≡ length result }
{
    [0; 1048576]
}

// A record by its numbers, after so many data records.
pub fn judge(parts: Parts, before: u64) -> Result<Item, Refusal>
    ensures { told_in result ≡ told_by before parts }
{
    if parts.sum != parts.last {
        return Err(Refusal::WrongSum);
    }
    if parts.head.count == 0 {
        if parts.head.address as u64 == before {
            return Ok(Item::End);
        }
        return Err(Refusal::NoEnd);
    }
    if parts.head.ends_past() {
        return Err(Refusal::PastTheEnd);
    }
    Ok(Item::Data(parts.head))
}

// The record with which a text begins.
pub fn read_item(text: &[u8], before: u64) -> Result<Item, Refusal>
    ensures { told_in result ≡ told (tape_item before text.now) }
{
    let Some(parts) = read_record(text, b';') else {
        return Err(Refusal::MalformedRecord);
    };
    judge(parts, before)
}

// The end record, of so many data records.
pub fn put_end(out: &mut Writer, number: u16)
    ensures { Writes out.old (record_text number [] ++ newline) out.new }
{
    let head = Head {
        address: number,
        count: 0,
    };
    put_head(out, b';', head);
    out.put_hex4(head.sum());
    out.put_text(b"\r\n");
}
