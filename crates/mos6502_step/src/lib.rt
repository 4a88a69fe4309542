// A step on numbers, for a host in C or Rust: see host/include/mos6502_step.h. It has an archive of its own: what a step does has one
// caller in each, so that the compiler puts all of it into this function here, and there into the loop of the runs, which drops
// the first address of a step.
#![tactic(auto)]

ghost use Rattle.std.specs.Prelude.{◌≡◌};
ghost use Rattle.mos6502.specs.Calls.{StepCall};

use cpu::turn;
use laws::answers::*;
use manual::FULL_MEMORY;
use mos6502_numbers::{hand_back, lines_from, machine_from};

// A step with the levels of `lines`: bit 0 is set if NMI is low, bit 1 if IRQ is. A refusal leaves both numbers and the
// memory as they were; it and a line that is served give 0000 for the first address.
#[unsafe(no_mangle)]
pub extern "C" fn mos6502_step(
    registers: &mut u64,
    cycles: &mut u64,
    lines: u8,
    first: &mut u16,
    memory: &mut [u8],
) -> u8
    ensures { StepCall registers.old cycles.old lines memory.old
        (record { answer = result; first = first.new; registers = registers.new; cycles = cycles.new })
        memory.new }
{
    let Some(memory) = memory.as_mut_array::<FULL_MEMORY>() else {
        *first = 0;
        return MEMORY_NOT_FULL;
    };
    let turned = turn(
        machine_from(*registers, *cycles),
        1,
        lines_from(lines),
        memory,
    );
    *first = turned.first;
    let ended = turned.ended;
    hand_back(0 < ended.steps, ended.machine, registers, cycles);
    u8::from(ended.reason)
}

// The version of these functions. A host asks for it by this name, so that an older archive does not link, and the linker says
// what to do. It changes, in the name too, with any change that a host would have to follow.
#[unsafe(no_mangle)]
pub extern "C" fn mos6502_step_version_1_run_rt_staticlib_mos6502_step() -> u8
    ensures { result ≡ 1 }
{
    1
}
