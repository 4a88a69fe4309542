// The core on numbers. A host in C or Rust calls it by the archive of `mos6502_c`; a step by itself is in `mos6502_step`. The numbers
// travel one by one, since the C interface hands them over so.
#![tactic(auto)]

ghost use Rattle.std.specs.Prelude.{◌≡◌, true, ◌<◌};
ghost use Rattle.registers.specs.State.{registers_of};
ghost use Rattle.registers.specs.StatusByte.{bit, pushed_byte, pulled_status};
ghost use Rattle.mos6502_numbers.specs.Packed.{packed, unpacked, unpacked_nmi};
ghost use Rattle.manual.specs.Stepping.{run_full};
ghost use Rattle.manual.specs.Micro.{exec, Gives};
ghost use Rattle.cpu.specs.Inner.Turning.{Calm, Fits, going, turning, settled};
ghost use Rattle.mos6502_numbers.specs.Machines.{machine_from, lines_from};
ghost use Rattle.mos6502.specs.Inner.Turns.{run_full_on_numbers, turn_on_numbers};
ghost use Rattle.mos6502.specs.Calls.{RunCall, LongRunCall, CyclesCall};

use cpu::{fitting, turn};
use cpu_cycles::sure_steps;
use laws::answers::*;
use manual::{FULL_MEMORY, HIGHEST_BOUND};
use memory::Memory;
use mos6502_numbers::{hand_back, lines_from, machine_from, pack, unpack, unpack_nmi};
use registers::{Registers, Status, flag};

// The number of some registers; bits 4 and 5 of the status do not matter. The last level of NMI is high, as it is at first.
pub fn mos6502_registers(accumulator: u8, x: u8, y: u8, stack: u8, status: u8, counter: u16) -> u64
    ensures { result ≡ packed (registers_of accumulator x y stack counter (pulled_status status)) true }
{
    pack(
        Registers::new(accumulator, x, y, stack, counter, Status::pulled(status)),
        true,
    )
}

// A of a number.
pub fn mos6502_accumulator(registers: u64) -> u8
    ensures { result ≡ (unpacked registers).accumulator }
{
    unpack(registers).accumulator
}

// X of a number.
pub fn mos6502_x(registers: u64) -> u8
    ensures { result ≡ (unpacked registers).x }
{
    unpack(registers).x
}

// Y of a number.
pub fn mos6502_y(registers: u64) -> u8
    ensures { result ≡ (unpacked registers).y }
{
    unpack(registers).y
}

// S of a number.
pub fn mos6502_stack(registers: u64) -> u8
    ensures { result ≡ (unpacked registers).stack.0 }
{
    unpack(registers).stack.0
}

// The status of a number, as PHP pushes it.
pub fn mos6502_status(registers: u64) -> u8
    ensures { result ≡ pushed_byte (unpacked registers).status }
{
    unpack(registers).status.pushed()
}

// The counter of a number.
pub fn mos6502_counter(registers: u64) -> u16
    ensures { result ≡ (unpacked registers).counter }
{
    unpack(registers).counter
}

// The last level of NMI of a number: 1 if it was high, 0 if it was low.
pub fn mos6502_nmi(registers: u64) -> u8
    ensures { result ≡ bit (unpacked_nmi registers) }
{
    flag(unpack_nmi(registers))
}

// A turn on numbers. The numbers are again those of the machine that is left. It drops the first address on the bus, so that
// the compiler leaves it out of the loop.
fn advance(
    registers: &mut u64,
    cycles: &mut u64,
    steps: &mut u64,
    bound: u64,
    lines: u8,
    memory: &mut Memory,
) -> u8
    requires { Calm (lines_from lines) bound × Fits cycles.old bound }
    ensures gives { Gives
        (turn_on_numbers bound lines registers.old cycles.old)
        memory.old
        (record { answer = result; steps = steps.new; registers = registers.new; cycles = cycles.new })
        memory.new }
    ensures cycles_after { machine_from registers.new cycles.new
        ≡ (settled
        (machine_from registers.old cycles.old)
        (exec (turning bound (lines_from lines) (machine_from registers.old cycles.old)) memory.old).0.ended
        ).machine }
{
    let turned = turn(
        machine_from(*registers, *cycles),
        bound,
        lines_from(lines),
        memory,
    );
    let ended = turned.ended;
    *steps = ended.steps;
    hand_back(0 < ended.steps, ended.machine, registers, cycles);
    u8::from(ended.reason)
}

// A turn of at most `bound` steps on numbers: with IRQ high as many as there is room for, and with IRQ low one. With one call for the
// two the compiler makes a slower loop (docs/RATE.md).
fn one_turn(
    registers: &mut u64,
    cycles: &mut u64,
    steps: &mut u64,
    bound: u64,
    lines: u8,
    memory: &mut Memory,
) -> u8
    requires { 0 < bound }
    ensures gives { Gives
        (turn_on_numbers (going (lines_from lines) cycles.old bound) lines registers.old cycles.old)
        memory.old
        (record { answer = result; steps = steps.new; registers = registers.new; cycles = cycles.new })
        memory.new }
    ensures cycles_after { machine_from registers.new cycles.new
        ≡ (settled
        (machine_from registers.old cycles.old)
        (exec (turning (going (lines_from lines) cycles.old bound) (lines_from lines) (machine_from registers.old cycles.old)) memory.old).0.ended
        ).machine }
{
    let present = lines_from(lines);
    if present.irq {
        let far = fitting(bound, *cycles);
        advance(registers, cycles, steps, far, lines, memory)
    } else {
        advance(registers, cycles, steps, 1, lines, memory)
    }
}

// At most `bound` steps on numbers, turn by turn. The numbers are again those of the machine that is left. `total` counts what the
// turns made, which is no index.
fn go_on(
    registers: &mut u64,
    cycles: &mut u64,
    steps: &mut u64,
    bound: u64,
    lines: u8,
    memory: &mut Memory,
) -> u8
    ensures gives { Gives
        (run_full_on_numbers bound lines registers.old cycles.old)
        memory.old
        (record { answer = result; steps = steps.new; registers = registers.new; cycles = cycles.new })
        memory.new }
    ensures cycles_after { machine_from registers.new cycles.new
        ≡ (exec (run_full bound 0 (lines_from lines) (machine_from registers.old cycles.old)) memory.old).0.machine }
{
    let mut total: u64 = 0;
    let mut made: u64 = 0;
    while total < bound {
        let answer = one_turn(registers, cycles, &mut made, bound - total, lines, memory);
        total += made;
        if answer != NOT_REFUSED {
            *steps = total;
            return answer;
        }
    }
    *steps = total;
    NOT_REFUSED
}

// A run of at most `bound` steps. If it makes none, both numbers stay as they were.
pub fn mos6502_run(
    registers: &mut u64,
    cycles: &mut u64,
    steps: &mut u64,
    bound: u64,
    lines: u8,
    memory: &mut [u8],
) -> u8
    ensures { RunCall registers.old cycles.old bound lines memory.old
        (record { answer = result; steps = steps.new; registers = registers.new; cycles = cycles.new })
        memory.new }
{
    let Some(memory) = memory.as_mut_array::<FULL_MEMORY>() else {
        *steps = 0;
        return MEMORY_NOT_FULL;
    };
    if HIGHEST_BOUND < bound {
        *steps = 0;
        return BOUND_TOO_HIGH;
    }
    go_on(registers, cycles, steps, bound, lines, memory)
}

// A run of any number of steps. If it makes none, both numbers stay as they were.
pub fn mos6502_long_run(
    registers: &mut u64,
    cycles: &mut u64,
    steps: &mut u64,
    bound: u64,
    lines: u8,
    memory: &mut [u8],
) -> u8
    ensures { LongRunCall registers.old cycles.old bound lines memory.old
        (record { answer = result; steps = steps.new; registers = registers.new; cycles = cycles.new })
        memory.new }
{
    let Some(memory) = memory.as_mut_array::<FULL_MEMORY>() else {
        *steps = 0;
        return MEMORY_NOT_FULL;
    };
    go_on(registers, cycles, steps, bound, lines, memory)
}

// A run that is over when `limit` or more cycles are spent, made of runs by steps. Where it makes no step, both numbers stay as
// they were. The loop counts cycles, which is no index.
pub fn mos6502_run_cycles(
    registers: &mut u64,
    cycles: &mut u64,
    steps: &mut u64,
    limit: u64,
    lines: u8,
    memory: &mut [u8],
) -> u8
    ensures { CyclesCall registers.old cycles.old limit lines memory.old
        (record { answer = result; steps = steps.new; registers = registers.new; cycles = cycles.new })
        memory.new }
{
    let Some(memory) = memory.as_mut_array::<FULL_MEMORY>() else {
        *steps = 0;
        return MEMORY_NOT_FULL;
    };
    if HIGHEST_BOUND < limit {
        *steps = 0;
        return BOUND_TOO_HIGH;
    }
    let from = *cycles;
    let mut total: u64 = 0;
    let mut made: u64 = 0;
    while *cycles - from < limit {
        let left = limit - (*cycles - from);
        let answer = go_on(
            registers,
            cycles,
            &mut made,
            sure_steps(left),
            lines,
            memory,
        );
        total += made;
        if answer != NOT_REFUSED {
            *steps = total;
            return answer;
        }
    }
    *steps = total;
    NOT_REFUSED
}
