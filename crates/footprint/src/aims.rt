// Where the bytes after an opcode lead. The step finds this by functions of its own: one that both called would have two
// callers, and would no longer be put into the loop of either.
ghost use Rattle.std.specs.Prelude.{◌≡◌, ◌+◌};
ghost use Rattle.manual.specs.Words.{low_byte, address_of, joined};
ghost use Rattle.footprint.specs.Inner.Ways.{first_at, absolute, pointed};

use memory::{Address, Memory, ZeroPage, address_from_bytes, get_byte, join, read_address};

// The place so many bytes after the opcode.
pub fn operand(counter: u16, count: u16) -> Address
    ensures { result.0 ≡ address_of (counter + count) }
{
    Address(counter).plus(count)
}

// The byte so many places above the stack pointer, in its page.
pub fn above(pointer: u8, count: u8) -> Address
    ensures { result.0 ≡ joined 1 (low_byte (pointer + count)) }
{
    join(1, pointer.wrapping_add(count))
}

// The place in the zero page that the first operand names.
pub fn zero_page(counter: u16, memory: &Memory) -> ZeroPage
    ensures { result.0 ≡ first_at counter memory.now }
{
    ZeroPage(get_byte(memory, operand(counter, 1)))
}

// The same and an index.
pub fn zero_page_plus(index: u8, counter: u16, memory: &Memory) -> ZeroPage
    ensures { result.0 ≡ low_byte (first_at counter memory.now + index) }
{
    zero_page(counter, memory).plus(index)
}

// The address that the two operands name.
pub fn absolute(counter: u16, memory: &Memory) -> Address
    ensures { result.0 ≡ absolute counter memory.now }
{
    address_from_bytes(read_address(memory, operand(counter, 1), operand(counter, 2)))
}

// An address and an index.
pub fn indexed(base: Address, index: u8) -> Address
    ensures { result.0 ≡ address_of (base.0 + index) }
{
    base.plus(index as u16)
}

// The address that a pointer in the zero page holds.
pub fn pointed(pointer: ZeroPage, memory: &Memory) -> Address
    ensures { result.0 ≡ pointed pointer.0 memory.now }
{
    address_from_bytes(read_address(memory, pointer.full(), pointer.plus(1).full()))
}
