// What a step will read and store to, on numbers, for a host in C or Rust: see host/include/mos6502_footprint.h.
#![tactic(auto)]

ghost use Rattle.std.specs.Prelude.{◌≡◌, length};
ghost use Rattle.manual.specs.ReadList.{listed_step};
ghost use Rattle.manual.specs.StoreList.{stored_by_step};
ghost use Rattle.mos6502_numbers.specs.Machines.{machine_from, lines_from};
ghost use Rattle.footprint.specs.Places.{footprint_of};

use footprint::{reads_of, stores_of};
use mos6502_numbers::{lines_from, machine_from};

// The number of addresses that a step from here reads, and they in order, with zeros after them. Nothing is changed.
#[unsafe(no_mangle)]
pub extern "C" fn mos6502_reads(
    registers: u64,
    cycles: u64,
    lines: u8,
    memory: &[u8],
    places: &mut [u16; 5],
) -> usize
    ensures { record { count = result; places = places.new }
        ≡ footprint_of (listed_step (length memory.now) (lines_from lines) (machine_from registers cycles) memory.now) }
{
    let footprint = reads_of(machine_from(registers, cycles), lines_from(lines), memory);
    let listed = footprint.places;
    *places = listed;
    footprint.count
}

// The same of the addresses that it stores to.
#[unsafe(no_mangle)]
pub extern "C" fn mos6502_stores(
    registers: u64,
    cycles: u64,
    lines: u8,
    memory: &[u8],
    places: &mut [u16; 5],
) -> usize
    ensures { record { count = result; places = places.new }
        ≡ footprint_of (stored_by_step (length memory.now) (lines_from lines) (machine_from registers cycles) memory.now) }
{
    let footprint = stores_of(machine_from(registers, cycles), lines_from(lines), memory);
    let listed = footprint.places;
    *places = listed;
    footprint.count
}

// The version of these functions. A host asks for it by this name, so that an older archive does not link, and the linker says
// what to do. It changes, in the name too, with any change that a host would have to follow.
#[unsafe(no_mangle)]
pub extern "C" fn mos6502_footprint_version_1_run_rt_staticlib_mos6502_footprint() -> u8
    ensures { result ≡ 1 }
{
    1
}
