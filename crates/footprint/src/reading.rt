// What an opcode reads, in the order of the rules' list: itself, operand bytes, pointer bytes, the target or what is pulled.
ghost use Rattle.std.specs.Prelude.{◌≡◌, ◌+◌, [], ◌∷◌};
ghost use Rattle.manual.specs.Words.{low_byte, address_of, page, joined};
ghost use Rattle.manual.specs.ReadList.{pointer_at};
ghost use Rattle.footprint.specs.Places.{footprint_of};
ghost use Rattle.footprint.specs.Inner.Ways.{read_to, read_by};

use crate::aims::{above, absolute, indexed, operand, pointed, zero_page, zero_page_plus};
use crate::places::Footprint;
use crate::ways::{Reading, Target};
use manual::IRQ_VECTOR;
use memory::{Address, Memory, ZeroPage, join};
use registers::Registers;

// The opcode, its operand and where that leads.
fn past_operand(target: Address, counter: u16) -> Footprint
    ensures { result ≡ footprint_of (counter ∷ address_of (counter + 1) ∷ target.0 ∷ []) }
{
    Footprint::of([counter, operand(counter, 1).0, target.0])
}

// The opcode, its two operands and where they lead.
fn past_operands(target: Address, counter: u16) -> Footprint
    ensures { result ≡ footprint_of (counter ∷ address_of (counter + 1) ∷ address_of (counter + 2) ∷ target.0 ∷ []) }
{
    Footprint::of([
        counter,
        operand(counter, 1).0,
        operand(counter, 2).0,
        target.0,
    ])
}

// The opcode, its operand and the two bytes of a pointer in the zero page.
fn to_pointer(pointer: ZeroPage, counter: u16) -> Footprint
    ensures { result ≡ footprint_of (counter ∷ address_of (counter + 1) ∷ pointer_at 0 pointer.0) }
{
    Footprint::of([
        counter,
        operand(counter, 1).0,
        pointer.full().0,
        pointer.plus(1).full().0,
    ])
}

// The same and where the pointer leads.
fn past_pointer(pointer: ZeroPage, target: Address, counter: u16) -> Footprint
    ensures { result
        ≡ footprint_of
        (counter ∷ address_of (counter + 1) ∷ joined 0 pointer.0 ∷ joined 0 (low_byte (pointer.0 + 1)) ∷ target.0 ∷ []) }
{
    Footprint::of([
        counter,
        operand(counter, 1).0,
        pointer.full().0,
        pointer.plus(1).full().0,
        target.0,
    ])
}

// The opcode, its operands and the two bytes of a pointer anywhere, which lie in one page.
fn to_jump_pointer(pointer: Address, counter: u16) -> Footprint
    ensures { result
        ≡ footprint_of
        (counter
        ∷ address_of (counter + 1)
        ∷ address_of (counter + 2)
        ∷ pointer_at (page pointer.0) (low_byte pointer.0)) }
{
    let high = pointer.high();
    let low = pointer.low();
    Footprint::of([
        counter,
        operand(counter, 1).0,
        operand(counter, 2).0,
        join(high, low).0,
        join(high, low.wrapping_add(1)).0,
    ])
}

// What is read by a mode that leads to a byte, the opcode first.
#[tactic(auto, unfolding(crate::specs::Inner::Ways::read_to))]
pub(crate) fn reads_to(target: Target, registers: Registers, memory: &Memory) -> Footprint
    ensures { result ≡ footprint_of (registers.counter ∷ read_to target registers memory.now) }
{
    let Registers { counter, x, y, .. } = registers;
    match target {
        Target::ZeroPage => past_operand(zero_page(counter, memory).full(), counter),
        Target::ZeroPageX => past_operand(zero_page_plus(x, counter, memory).full(), counter),
        Target::ZeroPageY => past_operand(zero_page_plus(y, counter, memory).full(), counter),
        Target::Absolute => past_operands(absolute(counter, memory), counter),
        Target::AbsoluteX => past_operands(indexed(absolute(counter, memory), x), counter),
        Target::AbsoluteY => past_operands(indexed(absolute(counter, memory), y), counter),
        Target::IndexedIndirectX => {
            let pointer = zero_page_plus(x, counter, memory);
            past_pointer(pointer, pointed(pointer, memory), counter)
        }
        Target::IndirectIndexedY => {
            let pointer = zero_page(counter, memory);
            past_pointer(pointer, indexed(pointed(pointer, memory), y), counter)
        }
    }
}

// What is read by a way, the opcode first.
#[tactic(auto, unfolding(crate::specs::Inner::Ways::read_by))]
pub(crate) fn reads_by(way: Reading, registers: Registers, memory: &Memory) -> Footprint
    ensures { result ≡ footprint_of (registers.counter ∷ read_by way registers memory.now) }
{
    let counter = registers.counter;
    let first = operand(counter, 1).0;
    let pointer = registers.stack.0;
    match way {
        Reading::Nothing => Footprint::of([counter]),
        Reading::To(target) => reads_to(target, registers, memory),
        Reading::OneOperand => Footprint::of([counter, first]),
        Reading::TwoOperands => Footprint::of([counter, first, operand(counter, 2).0]),
        Reading::PointerX => to_pointer(zero_page_plus(registers.x, counter, memory), counter),
        Reading::PointerY => to_pointer(zero_page(counter, memory), counter),
        Reading::JumpIndirect => to_jump_pointer(absolute(counter, memory), counter),
        Reading::PullOne => Footprint::of([counter, above(pointer, 1).0]),
        Reading::PullTwo => Footprint::of([counter, above(pointer, 1).0, above(pointer, 2).0]),
        Reading::PullThree => Footprint::of([
            counter,
            above(pointer, 1).0,
            above(pointer, 2).0,
            above(pointer, 3).0,
        ]),
        Reading::Vector => Footprint::of([counter, IRQ_VECTOR, IRQ_VECTOR + 1]),
    }
}
