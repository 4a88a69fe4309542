// Records of a paper tape and of Intel HEX, as far as they are alike: a mark, then bytes of two capital hexadecimal digits.
#![tactic(auto)]

ghost use Rattle.std.specs.Prelude.{◌≡◌, ◌≤◌, ◌+◌, ◌*◌, ◌/◌, ◌%◌, nat_lt, ◌∷◌, ◌++◌, drop, length};
ghost use Rattle.std.specs.List.{prefix_len};
ghost use Rattle.tape_records.specs.Records.{bytes_of, record_of, separator};
ghost use Rattle.tape_records.specs.Inner.Gaps.{gap_end};
ghost use Rattle.tape_records.specs.Inner.Reading.{summed, found, values_at};
ghost use Rattle.text_reading.specs.Found.{found as read_found};
ghost use Rattle.text_writing.specs.Written.{Wrote, Writes};
ghost use Rattle.text_writing.specs.Numerals.{hex2, hex4};

use text_reading::{Reading, byte_value, read_byte, read_mark, read_word, rest};
use text_writing::Writer;

// What a data record says before its data: where they go, and how many bytes they are.
#[derive(Clone, Copy)]
pub struct Head {
    pub address: u16,
    pub count: u8,
}

impl Head {
    // How many characters the whole record has.
    pub fn size(self) -> usize
        ensures { result ≡ 11 + 2 * self.count }
    {
        11 + 2 * (self.count as usize)
    }

    // The sum of its bytes.
    pub fn sum(self) -> u16
        ensures { result ≡ self.count + self.address / 256 + self.address % 256 }
    {
        (self.count as u16) + self.address / 256 + self.address % 256
    }

    // Whether the data go past FFFF.
    pub fn ends_past(self) -> bool
        ensures { result ≡ nat_lt 65536 (self.address + self.count) }
    {
        65536 < (self.address as u32) + (self.count as u32)
    }
}

// A record's numbers. The sum is that of all bytes but the last two, and these are `last`, as one number.
#[derive(Clone, Copy)]
pub struct Parts {
    pub head: Head,
    pub sum: u16,
    pub last: u16,
}

// What stands where a record has to begin, if it is good. An enum and no Option: `End` says what None would not.
#[derive(Clone, Copy)]
pub enum Item {
    Data(Head),
    End,
}

// The sum of a record's first bytes, which stand after its mark. It goes round at 65,536.
pub fn read_sum(text: &[u8], count: u16) -> Option<Reading<u16>>
    ensures { result ≡ read_found (summed 0 1 (bytes_of count (drop 1 text.now))) }
{
    let mut value: u16 = 0;
    let mut next: usize = 1;
    for _ in 0..count {
        let byte = read_byte(text, next)?;
        value = value.wrapping_add(byte.value as u16);
        next = byte.next;
    }
    Some(Reading { value, next })
}

// The record with which a text begins.
pub fn read_record(text: &[u8], mark: u8) -> Option<Parts>
    ensures { result ≡ found (record_of mark text.now) }
{
    let count = read_byte(text, read_mark(text, 0, mark)?)?;
    let sum = read_sum(text, (count.value as u16) + 3)?;
    let last = read_word(text, sum.next)?;
    let address = read_word(text, 3)?;
    Some(Parts {
        head: Head {
            address: address.value,
            count: count.value,
        },
        sum: sum.value,
        last: last.value,
    })
}

// Stores the bytes with which a text begins. What would lie past the memory's end is dropped, as a writer of text does it. Answers
// the address after them.
pub fn store_bytes(text: &[u8], count: u8, memory: &mut [u8], address: u16) -> usize
    ensures { Wrote memory.old address (values_at count text.now 0) memory.new result }
{
    let mut out = Writer::from(memory, address as usize);
    for index in 0..count {
        out.put_byte(byte_value(text, 2 * (index as usize)));
    }
    out.place()
}

// Writes a record's mark, its count and its address.
pub fn put_head(out: &mut Writer, mark: u8, head: Head)
    ensures { Writes out.old (mark ∷ hex2 head.count ++ hex4 head.address) out.new }
{
    out.put_byte(mark);
    out.put_hex2(head.count);
    out.put_hex4(head.address);
}

// CR, LF and NUL.
#[tactic(auto, unfolding(crate::specs::Records::separator))]
fn is_separator(character: u8) -> bool
    ensures { result ≡ separator character }
{
    matches!(character, b'\r' | b'\n' | 0)
}

// How many separators a text begins with.
fn gap_size(text: &[u8]) -> usize
    ensures value { result ≡ prefix_len separator text.now }
    ensures within { result ≤ length text.now }
{
    text.iter()
        .take_while(|&&character| is_separator(character))
        .count()
}

// The place of the first character from a place on that is no separator.
#[tactic(auto, using(crate::specs::Lemmas::Gaps::gap_prefix))]
pub fn skip_separators(text: &[u8], start: usize) -> usize
    ensures { result ≡ gap_end text.now start }
{
    start + gap_size(rest(text, start))
}
