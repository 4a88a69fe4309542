// The core on numbers, for a host in C or Rust: see host/include/mos6502.h. The archive is libmos6502.a; what it does is in
// `mos6502`, for a crate is a library or an archive.
#![tactic(auto)]

ghost use Rattle.std.specs.Prelude.{◌≡◌, true};
ghost use Rattle.registers.specs.State.{registers_of};
ghost use Rattle.registers.specs.StatusByte.{bit, pulled_status, pushed_byte};
ghost use Rattle.mos6502_numbers.specs.Packed.{packed, unpacked, unpacked_nmi};
ghost use Rattle.mos6502.specs.Calls.{RunCall, LongRunCall, CyclesCall};

// The number of some registers; bits 4 and 5 of the status do not matter. The last level of NMI is high, as it is at first.
#[unsafe(no_mangle)]
pub extern "C" fn mos6502_registers(
    accumulator: u8,
    x: u8,
    y: u8,
    stack: u8,
    status: u8,
    counter: u16,
) -> u64
    ensures { result ≡ packed (registers_of accumulator x y stack counter (pulled_status status)) true }
{
    mos6502::mos6502_registers(accumulator, x, y, stack, status, counter)
}

// A of a number.
#[unsafe(no_mangle)]
pub extern "C" fn mos6502_accumulator(registers: u64) -> u8
    ensures { result ≡ (unpacked registers).accumulator }
{
    mos6502::mos6502_accumulator(registers)
}

// X of a number.
#[unsafe(no_mangle)]
pub extern "C" fn mos6502_x(registers: u64) -> u8
    ensures { result ≡ (unpacked registers).x }
{
    mos6502::mos6502_x(registers)
}

// Y of a number.
#[unsafe(no_mangle)]
pub extern "C" fn mos6502_y(registers: u64) -> u8
    ensures { result ≡ (unpacked registers).y }
{
    mos6502::mos6502_y(registers)
}

// S of a number.
#[unsafe(no_mangle)]
pub extern "C" fn mos6502_stack(registers: u64) -> u8
    ensures { result ≡ (unpacked registers).stack.0 }
{
    mos6502::mos6502_stack(registers)
}

// The status of a number, as PHP pushes it.
#[unsafe(no_mangle)]
pub extern "C" fn mos6502_status(registers: u64) -> u8
    ensures { result ≡ pushed_byte (unpacked registers).status }
{
    mos6502::mos6502_status(registers)
}

// The counter of a number.
#[unsafe(no_mangle)]
pub extern "C" fn mos6502_counter(registers: u64) -> u16
    ensures { result ≡ (unpacked registers).counter }
{
    mos6502::mos6502_counter(registers)
}

// The last level of NMI of a number: 1 if it was high, 0 if it was low.
#[unsafe(no_mangle)]
pub extern "C" fn mos6502_nmi(registers: u64) -> u8
    ensures { result ≡ bit (unpacked_nmi registers) }
{
    mos6502::mos6502_nmi(registers)
}

// A run of at most `bound` steps. If it makes none, both numbers stay as they were.
#[unsafe(no_mangle)]
pub extern "C" fn mos6502_run(
    registers: &mut u64,
    cycles: &mut u64,
    steps: &mut u64,
    bound: u64,
    lines: u8,
    memory: &mut [u8],
) -> u8
    ensures { RunCall registers.old cycles.old bound lines memory.old
        (record { answer = result; steps = steps.new; registers = registers.new; cycles = cycles.new })
        memory.new }
{
    mos6502::mos6502_run(registers, cycles, steps, bound, lines, memory)
}

// A run of any number of steps. If it makes none, both numbers stay as they were.
#[unsafe(no_mangle)]
pub extern "C" fn mos6502_long_run(
    registers: &mut u64,
    cycles: &mut u64,
    steps: &mut u64,
    bound: u64,
    lines: u8,
    memory: &mut [u8],
) -> u8
    ensures { LongRunCall registers.old cycles.old bound lines memory.old
        (record { answer = result; steps = steps.new; registers = registers.new; cycles = cycles.new })
        memory.new }
{
    mos6502::mos6502_long_run(registers, cycles, steps, bound, lines, memory)
}

// A run that is over when `limit` or more cycles are spent, made of runs by steps. Where it makes no step, both numbers stay as
// they were.
#[unsafe(no_mangle)]
pub extern "C" fn mos6502_run_cycles(
    registers: &mut u64,
    cycles: &mut u64,
    steps: &mut u64,
    limit: u64,
    lines: u8,
    memory: &mut [u8],
) -> u8
    ensures { CyclesCall registers.old cycles.old limit lines memory.old
        (record { answer = result; steps = steps.new; registers = registers.new; cycles = cycles.new })
        memory.new }
{
    mos6502::mos6502_run_cycles(registers, cycles, steps, limit, lines, memory)
}

// The version of these functions. A host asks for it by this name, so that an older archive does not link, and the linker says
// what to do. It changes, in the name too, with any change that a host would have to follow.
#[unsafe(no_mangle)]
pub extern "C" fn mos6502_version_1_run_rt_staticlib_mos6502() -> u8
    ensures { result ≡ 1 }
{
    1
}
