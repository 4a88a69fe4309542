// What a step will read and what it will store to, found before it is made. Nothing is changed.
#![tactic(auto)]

ghost use Rattle.std.specs.Prelude.{◌≡◌, ◌+◌, ◌<◌, [], ◌∷◌, length, None};
ghost use Rattle.manual.specs.ReadList.{listed_due, listed_step_full, listed_step};
ghost use Rattle.manual.specs.StoreList.{stored_by_due, stored_by_step_full, stored_by_step};
ghost use Rattle.footprint.specs.Places.{footprint_of};

use manual::{FULL_MEMORY, HIGHEST_COUNT, Lines, Machine};
use memory::{Address, Memory, get_byte};
use places::Footprint;
use reading::reads_by;
use registers::Registers;
use storing::{pushes, stores_by};
use ways::{reading_way, storing_way};

pub mod aims; // aims.rt: where the bytes after an opcode lead
pub mod places; // places.rt: a few addresses in order
mod reading; // reading.rt: what is read by a way
mod storing; // storing.rt: what is stored to by a way
mod ways; // ways.rt: the way of each opcode

// What the byte at the counter reads, with itself: what a step reads if no line is due.
fn reads_quiet(registers: Registers, memory: &Memory) -> Footprint
    ensures { result ≡ footprint_of (listed_due None registers memory.now) }
{
    let opcode = get_byte(memory, Address(registers.counter));
    reads_by(reading_way(opcode), registers, memory)
}

// What the byte at the counter stores to.
fn stores_quiet(registers: Registers, memory: &Memory) -> Footprint
    ensures { result ≡ footprint_of (stored_by_due None registers memory.now) }
{
    let opcode = get_byte(memory, Address(registers.counter));
    stores_by(storing_way(opcode), registers, memory)
}

// The two bytes of a vector, which a step that serves a line reads.
fn reads_through(vector: u16) -> Footprint
    requires { vector + 1 < 65536 }
    ensures { result ≡ footprint_of (vector ∷ (vector + 1) ∷ []) }
{
    Footprint::of([vector, vector + 1])
}

// What a step on a full memory reads.
pub fn reads_full(machine: Machine, lines: Lines, memory: &Memory) -> Footprint
    ensures { result ≡ footprint_of (listed_step_full lines machine memory.now) }
{
    if HIGHEST_COUNT < machine.cycles {
        return Footprint::of([]);
    }
    match lines.due(machine) {
        Some(vector) => reads_through(vector),
        None => reads_quiet(machine.registers, memory),
    }
}

// The addresses that a step from here reads, in order. What it shares with `stores_of` is the test of the length alone.
pub fn reads_of(machine: Machine, lines: Lines, memory: &[u8]) -> Footprint
    ensures { result ≡ footprint_of (listed_step (length memory.now) lines machine memory.now) }
{
    let Some(memory) = memory.as_array::<FULL_MEMORY>() else {
        return Footprint::of([]);
    };
    reads_full(machine, lines, memory)
}

// What a step on a full memory stores to.
pub fn stores_full(machine: Machine, lines: Lines, memory: &Memory) -> Footprint
    ensures { result ≡ footprint_of (stored_by_step_full lines machine memory.now) }
{
    if HIGHEST_COUNT < machine.cycles {
        return Footprint::of([]);
    }
    match lines.due(machine) {
        Some(_) => pushes(machine.registers),
        None => stores_quiet(machine.registers, memory),
    }
}

// The addresses that a step from here stores to, in order.
pub fn stores_of(machine: Machine, lines: Lines, memory: &[u8]) -> Footprint
    ensures { result ≡ footprint_of (stored_by_step (length memory.now) lines machine memory.now) }
{
    let Some(memory) = memory.as_array::<FULL_MEMORY>() else {
        return Footprint::of([]);
    };
    stores_full(machine, lines, memory)
}
