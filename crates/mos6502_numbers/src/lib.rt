// The machine, its registers and the levels of the lines as numbers, for each archive that a host links.
#![tactic(auto)]

ghost use Rattle.std.specs.Prelude.{◌≡◌, cond};
ghost use Rattle.mos6502_numbers.specs.Packed.{packed, unpacked, unpacked_nmi};
ghost use Rattle.mos6502_numbers.specs.Machines.{machine_from, lines_from, registers_after, cycles_after};

use manual::{Lines, Machine};
use registers::{Registers, Status, flag};

// A, X, Y, S and the status as PHP pushes it in a byte each from the lowest on, then the counter, and bit 56 if the level
// was low. Unpacked again it is the same.
// Functions and no From: both types stand elsewhere, and the definitions have these names.
pub fn pack(registers: Registers, nmi: bool) -> u64
    ensures value { result ≡ packed registers nmi }
    ensures result_value { (unpacked result ≡ registers) × (unpacked_nmi result ≡ nmi) }
{
    (registers.accumulator as u64)
        + (registers.x as u64) * 0x100
        + (registers.y as u64) * 0x1_0000
        + (registers.stack.0 as u64) * 0x100_0000
        + (registers.status.pushed() as u64) * 0x1_0000_0000
        + (registers.counter as u64) * 0x100_0000_0000
        + (flag(!nmi) as u64) * 0x100_0000_0000_0000
}

// The registers of any number: bits 4 and 5 of the status and what stands above bit 56 do not matter.
pub fn unpack(number: u64) -> Registers
    ensures { result ≡ unpacked number }
{
    Registers::new(
        (number % 256) as u8,
        (number / 0x100 % 256) as u8,
        (number / 0x1_0000 % 256) as u8,
        (number / 0x100_0000 % 256) as u8,
        (number / 0x100_0000_0000 % 65536) as u16,
        Status::pulled((number / 0x1_0000_0000 % 256) as u8),
    )
}

// The last level of NMI of any number, true if it was high.
pub fn unpack_nmi(number: u64) -> bool
    ensures { result ≡ unpacked_nmi number }
{
    number / 0x100_0000_0000_0000 % 2 != 1
}

// The machine of a number and a cycle count.
pub fn machine_from(registers: u64, cycles: u64) -> Machine
    ensures { result ≡ machine_from registers cycles }
{
    Machine::new(unpack(registers), cycles, unpack_nmi(registers))
}

// The levels of the lines: bit 0 is set if NMI is low, bit 1 if IRQ is, and the others do not matter.
pub fn lines_from(lines: u8) -> Lines
    ensures { result ≡ lines_from lines }
{
    Lines {
        irq: lines / 2 % 2 != 1,
        nmi: lines % 2 != 1,
    }
}

// The machine as the two numbers, if a step was made.
pub fn hand_back(made: bool, machine: Machine, registers: &mut u64, cycles: &mut u64)
    ensures registers_after { registers.new ≡ registers_after made machine registers.old }
    ensures cycles_after { cycles.new ≡ cycles_after made machine cycles.old }
    ensures cycles_after_2 { machine_from registers.new cycles.new ≡ cond made machine (machine_from registers.old cycles.old) }
{
    if made {
        let after = machine.registers;
        *registers = pack(after, machine.nmi);
        *cycles = machine.cycles;
    }
}
