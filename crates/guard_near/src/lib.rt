// Which steps cannot touch a guarded byte, found in a few instructions: by the bytes of the maps, eight addresses each, that its
// addresses lie in. A step that may touch one is looked at exactly; so a guarded byte beside those that a program uses costs
// time, and nothing else.
#![tactic(auto)]

ghost use Rattle.std.specs.Prelude.{◌≡◌, false};
ghost use Rattle.manual.specs.Words.{joined};
ghost use Rattle.manual.specs.ReadList.{pointer_at};
ghost use Rattle.guard_maps.specs.Maps.{in_map};
ghost use Rattle.guard_near.specs.Inner.Near.{region_of, around_stack, Free, AllFree, LowFree, CodeFree, RegionFree, Untouched};

use footprint::aims::{above, absolute, indexed, pointed, zero_page, zero_page_plus};
use guard_maps::Guards;
use memory::{Address, Memory, ZeroPage, get_byte, join};
use registers::Registers;

// Where the step of an opcode may reach, besides its own bytes: nowhere; to the byte that a mode leads to, with its pointer; to
// the stack; or to somewhere else, which is not looked into here. Footprint's `Target` has no word for the stack's ways, and a Target inside would be a
// second match in the guard's loop.
#[derive(Clone, Copy)]
enum Region {
    Nowhere,
    ZeroPage,
    ZeroPageX,
    ZeroPageY,
    Absolute,
    AbsoluteX,
    AbsoluteY,
    IndexedIndirectX,
    IndirectIndexedY,
    Stack,
    Anywhere,
}

// The region of an opcode, by the columns of the opcode matrix.
fn region_of(opcode: u8) -> Region
    ensures { result ≡ region_of opcode }
{
    match opcode {
        0x00 | 0x6C => Region::Anywhere,
        0x08 | 0x20 | 0x28 | 0x40 | 0x48 | 0x60 | 0x68 => Region::Stack,
        0x01 | 0x21 | 0x41 | 0x61 | 0x81 | 0xA1 | 0xC1 | 0xE1 => Region::IndexedIndirectX,
        0x11 | 0x31 | 0x51 | 0x71 | 0x91 | 0xB1 | 0xD1 | 0xF1 => Region::IndirectIndexedY,
        0x24 | 0x84 | 0xA4 | 0xC4 | 0xE4 => Region::ZeroPage,
        0x94 | 0xB4 => Region::ZeroPageX,
        0x05 | 0x25 | 0x45 | 0x65 | 0x85 | 0xA5 | 0xC5 | 0xE5 => Region::ZeroPage,
        0x15 | 0x35 | 0x55 | 0x75 | 0x95 | 0xB5 | 0xD5 | 0xF5 => Region::ZeroPageX,
        0x06 | 0x26 | 0x46 | 0x66 | 0x86 | 0xA6 | 0xC6 | 0xE6 => Region::ZeroPage,
        0x16 | 0x36 | 0x56 | 0x76 | 0xD6 | 0xF6 => Region::ZeroPageX,
        0x96 | 0xB6 => Region::ZeroPageY,
        0x19 | 0x39 | 0x59 | 0x79 | 0x99 | 0xB9 | 0xBE | 0xD9 | 0xF9 => Region::AbsoluteY,
        0x2C | 0x4C | 0x8C | 0xAC | 0xCC | 0xEC => Region::Absolute,
        0x0D | 0x2D | 0x4D | 0x6D | 0x8D | 0xAD | 0xCD | 0xED => Region::Absolute,
        0x0E | 0x2E | 0x4E | 0x6E | 0x8E | 0xAE | 0xCE | 0xEE => Region::Absolute,
        0x1D | 0x3D | 0x5D | 0x7D | 0x9D | 0xBD | 0xDD | 0xFD => Region::AbsoluteX,
        0x1E | 0x3E | 0x5E | 0x7E | 0xBC | 0xDE | 0xFE => Region::AbsoluteX,
        _ => Region::Nowhere,
    }
}

// What is guarded, and whether something is in the zero page or the stack's page.
#[derive(Clone, Copy)]
pub struct Near<'a> {
    pub guards: Guards<'a>,
    low: bool,
    // `low` is false only if nothing is guarded in the first two pages.
    ghost low_free: { LowFree (in_map guards.reads.now) (in_map guards.stores.now) low },
}

impl<'a> Near<'a> {
    // Looks the first two pages up.
    pub fn new(guards: Guards<'a>) -> Near<'a>
        ensures { result.guards ≡ guards.entry }
    {
        let mut all: u8 = 0;
        // By index: the same place of both maps.
        for i in 0..64 {
            all |= guards.reads[i] | guards.stores[i];
        }
        Near {
            guards,
            low: all != 0,
        }
    }

    // Whether one of the eight addresses around this one is guarded.
    #[tactic(auto, using(crate::specs::Lemmas::Near::here_free))]
    fn near(self, place: Address) -> bool
        ensures { result ≡ false → Free (in_map self.entry.guards.reads.now) (in_map self.entry.guards.stores.now) place.0 }
    {
        let at = (place.0 / 8) as usize;
        (self.guards.reads[at] | self.guards.stores[at]) != 0
    }

    // The same in the zero page.
    fn near_low(self, place: ZeroPage) -> bool
        ensures { result ≡ false → Free (in_map self.entry.guards.reads.now) (in_map self.entry.guards.stores.now) (joined 0 place.0) }
    {
        self.low && self.near(place.full())
    }

    // The same of the two bytes of a pointer.
    fn near_pointer(self, pointer: ZeroPage) -> bool
        ensures { result ≡ false → AllFree (in_map self.entry.guards.reads.now) (in_map self.entry.guards.stores.now) (pointer_at 0 pointer.0) }
    {
        self.near_low(pointer) || self.near_low(pointer.plus(1))
    }

    // The same of what can be pulled and pushed: three bytes above the stack pointer, its own and the two below.
    #[tactic(auto, using(crate::specs::Lemmas::Near::low_stack))]
    fn near_stack(self, pointer: u8) -> bool
        ensures { result ≡ false → AllFree (in_map self.entry.guards.reads.now) (in_map self.entry.guards.stores.now) (around_stack pointer) }
    {
        if !self.low {
            return false;
        }
        let Guards { reads, stores } = self.guards;
        let below = (above(pointer, 254).0 / 8) as usize;
        let here = (join(1, pointer).0 / 8) as usize;
        let over = (above(pointer, 3).0 / 8) as usize;
        (reads[below] | stores[below] | reads[here] | stores[here] | reads[over] | stores[over])
            != 0
    }

    // The same of an opcode's byte and the two after it, which are read alone.
    fn near_code(self, counter: u16) -> bool
        ensures { result ≡ false → CodeFree (in_map self.entry.guards.reads.now) counter }
    {
        let here = (counter / 8) as usize;
        let there = (counter.wrapping_add(2) / 8) as usize;
        (self.guards.reads[here] | self.guards.reads[there]) != 0
    }

    // The same of a region: somewhere else may be anywhere.
    #[tactic(auto, unfolding(crate::specs::Inner::Near::RegionFree))]
    fn near_region(self, region: Region, registers: Registers, memory: &Memory) -> bool
        ensures { result ≡ false
            → RegionFree (in_map self.entry.guards.reads.now) (in_map self.entry.guards.stores.now) region registers memory.now }
    {
        let Registers { counter, x, y, .. } = registers;
        match region {
            Region::Nowhere => false,
            Region::ZeroPage => self.near_low(zero_page(counter, memory)),
            Region::ZeroPageX => self.near_low(zero_page_plus(x, counter, memory)),
            Region::ZeroPageY => self.near_low(zero_page_plus(y, counter, memory)),
            Region::Absolute => self.near(absolute(counter, memory)),
            Region::AbsoluteX => self.near(indexed(absolute(counter, memory), x)),
            Region::AbsoluteY => self.near(indexed(absolute(counter, memory), y)),
            Region::IndexedIndirectX => {
                let pointer = zero_page_plus(x, counter, memory);
                self.near_pointer(pointer) || self.near(pointed(pointer, memory))
            }
            Region::IndirectIndexedY => {
                let pointer = zero_page(counter, memory);
                self.near_pointer(pointer) || self.near(indexed(pointed(pointer, memory), y))
            }
            Region::Stack => self.near_stack(registers.stack.0),
            Region::Anywhere => true,
        }
    }

    // Whether the byte at the counter may touch something guarded: if not, it touches nothing.
    #[tactic(auto, using(crate::specs::Lemmas::Near::untouched))]
    pub fn may_touch(self, registers: Registers, memory: &Memory) -> bool
        ensures { result ≡ false → Untouched (in_map self.entry.guards.reads.now) (in_map self.entry.guards.stores.now) registers memory.now }
    {
        let counter = registers.counter;
        self.near_code(counter)
            || self.near_region(
                region_of(get_byte(memory, Address(counter))),
                registers,
                memory,
            )
    }
}
