// The thirteen addressing modes, after fetch_next_and_decode of cpu.rs.
#![tactic(auto)]

ghost use Rattle.std.specs.Prelude.{◌≡◌, ◌+◌, [], ◌∷◌, slice_index};
ghost use Rattle.manual.specs.Micro.{Gives};
ghost use Rattle.manual.specs.Words.{low_byte, joined};
ghost use Rattle.manual.specs.Addressing.{operand, plain, indexed, silent, target};
ghost use Rattle.manual.specs.Instructions.{advanced};

use arithmetic::branch_target;
use instruction::AddressingMode;
use manual::Target;
use memory::{Address, Memory, ZeroPage, address_from_bytes, get_byte, join, read_address};
use registers::Registers;

// The place so many bytes after the opcode.
pub fn operand_at(registers: Registers, count: u16) -> Address
    ensures { result.0 ≡ operand registers count }
{
    Address(registers.counter).plus(count)
}

// The registers with the counter past the instruction.
pub fn advanced(mode: AddressingMode, registers: Registers) -> Registers
    ensures { result ≡ advanced mode registers }
{
    registers.with_counter(operand_at(registers, 1 + mode.extra_bytes()).0)
}

// The byte after the opcode.
fn operand_byte(registers: Registers, memory: &Memory) -> u8
    ensures { result ≡ slice_index memory.now (operand registers 1) }
{
    get_byte(memory, operand_at(registers, 1))
}

// The address that the two operand bytes name, the low one first.
fn operand_address(registers: Registers, memory: &Memory) -> Address
    ensures { result.0 ≡ joined (slice_index memory.now (operand registers 2)) (slice_index memory.now (operand registers 1)) }
{
    address_from_bytes(read_address(memory, operand_at(registers, 1), operand_at(registers, 2)))
}

// A pointer's two bytes, the low one first: both lie in one page, the zero page or the one that JMP names.
fn read_pointer(memory: &Memory, high: u8, byte: u8) -> [u8; 2]
    ensures { result
        ≡ slice_index memory.now (joined high byte)
        ∷ slice_index memory.now (joined high (low_byte (byte + 1)))
        ∷ [] }
{
    read_address(memory, join(high, byte), join(high, byte.wrapping_add(1)))
}

// An address that is not counted from another is on the bus at once.
fn plain(at: Address) -> Target
    ensures { result ≡ plain at.0 }
{
    Target {
        address: at.0,
        crossed: false,
        first: at.0,
    }
}

// A base and an index: the base's page with the sum's low byte is first on the bus.
fn indexed(base: Address, index: u8) -> Target
    ensures { result ≡ indexed base.0 index }
{
    let sum = base.plus(index as u16);
    Target {
        address: sum.0,
        crossed: base.high() != sum.high(),
        first: join(base.high(), sum.low()).0,
    }
}

// A mode that has no address puts none out.
fn silent(at: Address, crossed: bool) -> Target
    ensures { result ≡ silent at.0 crossed }
{
    Target {
        address: at.0,
        crossed,
        first: 0,
    }
}

// Where a mode leads. The accumulator and implied modes lead nowhere: 0000, and no instruction asks.
#[tactic(auto, unfolding(manual::specs::Addressing::target))]
pub fn target_of(mode: AddressingMode, registers: Registers, memory: &Memory) -> Target
    ensures { Gives (target mode registers) memory.now result memory.now }
{
    match mode {
        AddressingMode::Accumulator | AddressingMode::Implied => silent(Address(0), false),
        AddressingMode::Immediate => silent(operand_at(registers, 1), false),
        AddressingMode::ZeroPage => plain(ZeroPage(operand_byte(registers, memory)).full()),
        AddressingMode::ZeroPageX => plain(
            ZeroPage(operand_byte(registers, memory))
                .plus(registers.x)
                .full(),
        ),
        AddressingMode::ZeroPageY => plain(
            ZeroPage(operand_byte(registers, memory))
                .plus(registers.y)
                .full(),
        ),
        AddressingMode::Relative => {
            let next = operand_at(registers, 2);
            let goal = branch_target(next.0, operand_byte(registers, memory));
            silent(Address(goal), next.0 / 256 != goal / 256)
        }
        AddressingMode::Absolute => plain(operand_address(registers, memory)),
        AddressingMode::AbsoluteX => indexed(operand_address(registers, memory), registers.x),
        AddressingMode::AbsoluteY => indexed(operand_address(registers, memory), registers.y),
        AddressingMode::BuggyIndirect => {
            let pointer = operand_address(registers, memory);
            plain(address_from_bytes(read_pointer(memory, pointer.high(), pointer.low())))
        }
        AddressingMode::IndexedIndirectX => {
            let pointer = ZeroPage(operand_byte(registers, memory)).plus(registers.x);
            plain(address_from_bytes(read_pointer(memory, 0, pointer.0)))
        }
        AddressingMode::IndirectIndexedY => {
            let pointer = ZeroPage(operand_byte(registers, memory));
            indexed(
                address_from_bytes(read_pointer(memory, 0, pointer.0)),
                registers.y,
            )
        }
    }
}
