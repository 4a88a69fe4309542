// Addresses, and the bytes of the lent memory at them, after memory.rs.
#![tactic(auto)]

ghost use Rattle.std.specs.Prelude.{◌≡◌, ◌+◌, [], ◌∷◌, length, replicate, slice_index, slice_set};
ghost use Rattle.manual.specs.Words.{low_byte, address_of, page, joined};

use manual::FULL_MEMORY;

// A whole memory. Where any bytes are lent, `as_mut_array::<FULL_MEMORY>` gives it of those that are as long.
pub type Memory = [u8; FULL_MEMORY];

// An address in the zero page is one byte, and reaches memory only through its page.
#[derive(Clone, Copy, PartialEq, Eq)]
pub struct ZeroPage(pub u8);

// Any address.
#[derive(Clone, Copy, PartialEq, Eq)]
pub struct Address(pub u16);

// The address of a byte in a page: the one place where the two are joined.
pub fn join(high: u8, byte: u8) -> Address
    ensures { result.0 ≡ joined high byte }
{
    Address((high as u16) * 256 + (byte as u16))
}

impl ZeroPage {
    // The whole address.
    pub fn full(self) -> Address
        ensures { result.0 ≡ joined 0 self.0 }
    {
        join(0, self.0)
    }

    // The sum stays in the zero page.
    pub fn plus(self, index: u8) -> ZeroPage
        ensures { result.0 ≡ low_byte (self.0 + index) }
    {
        ZeroPage(self.0.wrapping_add(index))
    }
}

impl Address {
    // So many bytes on, from FFFF to 0000.
    pub fn plus(self, count: u16) -> Address
        ensures { result.0 ≡ address_of (self.0 + count) }
    {
        Address(self.0.wrapping_add(count))
    }

    // The page.
    pub fn high(self) -> u8
        ensures { result ≡ page self.0 }
    {
        (self.0 / 256) as u8
    }

    // The byte in the page.
    pub fn low(self) -> u8
        ensures { result ≡ low_byte self.0 }
    {
        (self.0 % 256) as u8
    }
}

// The byte at an address.
pub fn get_byte(memory: &Memory, at: Address) -> u8
    ensures { result ≡ slice_index memory.now at.0 }
{
    memory[at.0 as usize]
}

// The same of a memory of any length: past its end stands 0.
pub fn peek(memory: &[u8], at: Address) -> u8
    ensures { result ≡ slice_index memory.now at.0 }
{
    memory.get(at.0 as usize).copied().unwrap_or(0)
}

// Stores a byte at an address.
pub fn set_byte(memory: &mut Memory, at: Address, byte: u8)
    ensures { memory.new ≡ slice_set memory.old at.0 byte }
{
    memory[at.0 as usize] = byte;
}

// Two bytes of an address, the low one first.
pub fn read_address(memory: &Memory, first: Address, second: Address) -> [u8; 2]
    ensures { result ≡ slice_index memory.now first.0 ∷ slice_index memory.now second.0 ∷ [] }
{
    [get_byte(memory, first), get_byte(memory, second)]
}

// The address of two bytes, the low one first.
pub fn address_from_bytes(bytes: [u8; 2]) -> Address
    ensures { result.0 ≡ joined (slice_index bytes 1) (slice_index bytes 0) }
{
    join(bytes[1], bytes[0])
}

// Room for an image of the memory, or for a halted run, which has a line of at most 41 characters more, and one byte more, so
// that a longer one shows.
pub fn image_buffer() -> [u8; 65578]
    ensures value { result ≡ replicate 65578 0 }
    ensures value_2 { 65578 ≡ length result }
{
    [0; 65578]
}
