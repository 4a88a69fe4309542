// The records of Intel HEX, types 00 and 01.
#![tactic(auto)]

ghost use Rattle.std.specs.Prelude.{◌≡◌};
ghost use Rattle.tape_records.specs.Inner.Items.{told, told_in};
ghost use Rattle.tape_intel.specs.IntelHex.{hex_item};
ghost use Rattle.tape_intel.specs.Inner.Items.{sum_right, told_data, told_end, told_by};

use laws::answers::Refusal;
use tape_records::{Item, Parts, read_record};
use text_reading::read_byte;

// Whether the sum of all bytes is 0 modulo 256. The last two are not in the sum that the parts have.
fn right_sum(parts: Parts) -> bool
    ensures { result ≡ sum_right parts }
{
    (parts.sum % 256 + parts.last / 256 + parts.last % 256) % 256 == 0
}

// A record of type 00 by its numbers, after so many data records.
fn judge_data(parts: Parts, before: u64) -> Result<Item, Refusal>
    ensures { told_in result ≡ told_data before parts }
{
    if parts.head.count == 0 {
        return Err(Refusal::MalformedRecord);
    }
    if !right_sum(parts) {
        return Err(Refusal::WrongSum);
    }
    if parts.head.ends_past() {
        return Err(Refusal::PastTheEnd);
    }
    if before < 65535 {
        return Ok(Item::Data(parts.head));
    }
    Err(Refusal::NoEnd)
}

// A record of type 01 by its numbers.
fn judge_end(parts: Parts) -> Result<Item, Refusal>
    ensures { told_in result ≡ told_end parts }
{
    if !right_sum(parts) {
        return Err(Refusal::WrongSum);
    }
    if parts.head.count != 0 || parts.head.address != 0 {
        return Err(Refusal::MalformedRecord);
    }
    Ok(Item::End)
}

// A record by its type and its numbers, after so many data records.
fn judge(kind: u8, parts: Parts, before: u64) -> Result<Item, Refusal>
    ensures { told_in result ≡ told_by before kind parts }
{
    match kind {
        0 => judge_data(parts, before),
        1 => judge_end(parts),
        _ => Err(Refusal::MalformedRecord),
    }
}

// The record with which a text begins, after so many data records. Its type stands after mark, count and address.
pub fn read_item(text: &[u8], before: u64) -> Result<Item, Refusal>
    ensures { told_in result ≡ told (hex_item before text.now) }
{
    let Some(parts) = read_record(text, b':') else {
        return Err(Refusal::MalformedRecord);
    };
    let Some(kind) = read_byte(text, 7) else {
        return Err(Refusal::MalformedRecord);
    };
    judge(kind.value, parts, before)
}
