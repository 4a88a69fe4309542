// What a row of the opcode table gives: an operation, an addressing mode and base cycles carried out.
#![tactic(auto)]

ghost use Rattle.std.specs.Prelude.{◌≡◌, ◌+◌, ◌≤◌};
ghost use Rattle.opcode_effects.specs.Inner.Performing.{ticks_of, performed_from, finished};

use alu::{add_with_carry, subtract_with_carry};
use manual::Effect;
use registers::Registers;

mod keeping; // keeping.rt: a row that keeps the memory as it is
mod storing; // storing.rt: a row that stores

pub use keeping::{adds, keeps, subtracts};
pub use storing::stores;

// A step on the clock of a run: the steps that are left stand from here on, and the cycles that were made below.
pub const STEP: u64 = 0x1000_0000;

// What an opcode's instruction leaves: the registers, what it takes off the clock, and its first address on the bus.
#[derive(Clone, Copy)]
pub struct Performed {
    pub registers: Registers,
    pub ticks: u64,
    pub first: u16,
}

// The same with a byte that is still to be added or subtracted.
#[derive(Clone, Copy)]
pub struct Pending {
    pub registers: Registers,
    pub ticks: u64,
    pub first: u16,
    pub value: u8,
}

// What a row gives. ADC and SBC are finished behind the rows, once for all their modes: so a row stays small, and the compiler
// puts it into the loop.
#[derive(Clone, Copy)]
pub enum Row {
    Whole(Performed),
    Adding(Pending),
    Subtracting(Pending),
    NotAnOpcode,
}

// What a step of so many cycles takes off the clock: one step less, and its cycles more.
fn ticks_of(cycles: u8, extra: u8) -> u64
    requires { cycles + extra ≤ 255 }
    ensures { result ≡ ticks_of (cycles + extra) }
{
    STEP - ((cycles + extra) as u64)
}

// What an instruction's effect comes to, with the base cycles.
fn counted(cycles: u8, effect: Effect) -> Row
    requires { cycles + effect.extra ≤ 255 }
    ensures { result ≡ Row.Whole (performed_from cycles effect) }
{
    let after = effect.registers;
    Row::Whole(Performed {
        registers: after,
        ticks: ticks_of(cycles, effect.extra),
        first: effect.first,
    })
}

// What a row comes to, with the sum or the difference made.
pub fn finish(row: Row) -> Option<Performed>
    ensures { result ≡ finished row }
{
    match row {
        Row::Whole(performed) => Some(performed),
        Row::Adding(pending) => {
            let before = pending.registers;
            let after = add_with_carry(before.kept_apart(), pending.value);
            Some(Performed {
                registers: after,
                ticks: pending.ticks,
                first: pending.first,
            })
        }
        // Two arms: one for both would have to be told which it is.
        Row::Subtracting(pending) => {
            let before = pending.registers;
            let after = subtract_with_carry(before.kept_apart(), pending.value);
            Some(Performed {
                registers: after,
                ticks: pending.ticks,
                first: pending.first,
            })
        }
        Row::NotAnOpcode => None,
    }
}
