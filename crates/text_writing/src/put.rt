// What a writer writes.
ghost use Rattle.std.specs.Prelude.{◌≡◌, [], ◌∷◌, ◌<◌};
ghost use Rattle.std.specs.List.{flat_map};
ghost use Rattle.text_writing.specs.Written.{Wrote, Writes};
ghost use Rattle.text_writing.specs.Numerals.{digit as Numerals·digit, hex2, hex4, decimal, spaced};

use crate::Writer;

const DIGITS: [u8; 16] = *b"0123456789ABCDEF";

// The character of a digit.
fn digit(value: u8) -> u8
    requires { value < 16 }
    ensures { result ≡ Numerals·digit value }
{
    DIGITS[value as usize]
}

// What a writer does, on its buffer and its place by themselves, so that both are at hand while a text is written. Through a lent
// Writer both would be looked up anew for each character, and a tape would take twice the time to punch.

// One character at a place, and the place after it.
fn byte_at(out: &mut [u8], at: usize, byte: u8) -> usize
    ensures { Wrote out.old at (byte ∷ []) out.new result }
{
    if at < out.len() {
        out[at] = byte;
        at + 1
    } else {
        at.saturating_add(1)
    }
}

// The characters of a text.
fn text_at(out: &mut [u8], at: usize, text: &[u8]) -> usize
    ensures { Wrote out.old at text.now out.new result }
{
    let mut next = at;
    for &character in text {
        next = byte_at(out, next, character);
    }
    next
}

// A byte as two capital hexadecimal digits.
fn hex2_at(out: &mut [u8], at: usize, byte: u8) -> usize
    ensures { Wrote out.old at (hex2 byte) out.new result }
{
    let next = byte_at(out, at, digit(byte / 16));
    byte_at(out, next, digit(byte % 16))
}

// Bytes one after another.
fn hexes_at(out: &mut [u8], at: usize, bytes: &[u8]) -> usize
    ensures { Wrote out.old at (flat_map hex2 bytes.now) out.new result }
{
    let mut next = at;
    for &byte in bytes {
        next = hex2_at(out, next, byte);
    }
    next
}

impl<'a> Writer<'a> {
    // A writer that begins at a place of a buffer.
    pub fn from(out: &'a mut [u8], at: usize) -> Writer<'a>
        ensures same_reference { result.out.ghost_name ≡ out.entry.ghost_name }
        ensures same_bytes { result.out.now ≡ out.old }
        ensures begins { result.at ≡ at }
    {
        Writer { out, at }
    }

    // A writer that begins at the start of a buffer.
    pub fn new(out: &'a mut [u8]) -> Writer<'a>
        ensures same_reference { result.out.ghost_name ≡ out.entry.ghost_name }
        ensures same_bytes { result.out.now ≡ out.old }
        ensures begins { result.at ≡ 0 }
    {
        Writer { out, at: 0 }
    }

    // The place after what was written: the length of the text, if it began at the start. Whoever hands the text on cuts it off the
    // buffer there, where it is proved that all of it fitted; a method that gave what is there would cut a longer one short.
    pub fn place(&self) -> usize
        ensures { result ≡ self.now.at }
    {
        self.at
    }

    // One character.
    pub fn put_byte(&mut self, byte: u8)
        ensures { Writes self.old (byte ∷ []) self.new }
    {
        self.at = byte_at(self.out, self.at, byte);
    }

    // The characters of a text.
    pub fn put_text(&mut self, text: &[u8])
        ensures { Writes self.old text.now self.new }
    {
        self.at = text_at(self.out, self.at, text);
    }

    // A byte as two capital hexadecimal digits.
    pub fn put_hex2(&mut self, byte: u8)
        ensures { Writes self.old (hex2 byte) self.new }
    {
        self.at = hex2_at(self.out, self.at, byte);
    }

    // Bytes one after another, two digits each.
    pub fn put_hexes(&mut self, bytes: &[u8])
        ensures { Writes self.old (flat_map hex2 bytes.now) self.new }
    {
        self.at = hexes_at(self.out, self.at, bytes);
    }

    // A word as four.
    pub fn put_hex4(&mut self, word: u16)
        ensures { Writes self.old (hex4 word) self.new }
    {
        self.put_hex2((word / 256) as u8);
        self.put_hex2((word % 256) as u8);
    }

    // A number in decimal, with no leading zero.
    pub fn put_decimal(&mut self, number: u64)
        ensures { Writes self.old (decimal number) self.new }
    {
        if 10 <= number {
            self.put_decimal(number / 10);
        }
        self.put_byte(digit((number % 10) as u8));
    }

    // A byte as a field of a line: a space stands before it.
    pub fn put_spaced_hex2(&mut self, byte: u8)
        ensures { Writes self.old (spaced (hex2 byte)) self.new }
    {
        self.put_byte(b' ');
        self.put_hex2(byte);
    }

    // A word as a field.
    pub fn put_spaced_hex4(&mut self, word: u16)
        ensures { Writes self.old (spaced (hex4 word)) self.new }
    {
        self.put_byte(b' ');
        self.put_hex4(word);
    }

    // A number in decimal as a field.
    pub fn put_spaced_decimal(&mut self, number: u64)
        ensures { Writes self.old (spaced (decimal number)) self.new }
    {
        self.put_byte(b' ');
        self.put_decimal(number);
    }
}
