// The guarded run, the extract and the run to an address on numbers, for a host in C or Rust: see host/include/mos6502_guard.h.
// They are an archive of their own, so that its loop is the only caller of what a step does in it: what has one caller is put into
// it.
#![tactic(auto)]

ghost use Rattle.std.specs.Prelude.{◌≡◌, length};
ghost use Rattle.manual.specs.Micro.{Gives};
ghost use Rattle.guard_maps.specs.Maps.{in_map};
ghost use Rattle.mos6502_guard.specs.Guarding.{guard_numbers, guarded_on_numbers, extract_on_numbers};
ghost use Rattle.mos6502_guard.specs.Stopping.{run_to_on_numbers};

use guard::extract::extract;
use guard::{Guarded, guarded_run};
use guard_maps::{Guards, MAP_SIZE};
use guard_stop::{run_to, stop_answer};
use mos6502_numbers::{hand_back, lines_from, machine_from};

// What a guarded run answered, as numbers. If it was not halted the place is 0000.
fn hand_over(
    guarded: Guarded,
    registers: &mut u64,
    cycles: &mut u64,
    steps: &mut u64,
    place: &mut u16,
) -> u8
    ensures { record {
      answer = result;
      steps = steps.new;
      place = place.new;
      registers = registers.new;
      cycles = cycles.new;
    }
        ≡ guard_numbers registers.old cycles.old guarded }
{
    match guarded {
        Ok(ended) => {
            *steps = ended.steps;
            *place = 0;
            hand_back(0 < ended.steps, ended.machine, registers, cycles);
            u8::from(ended.reason)
        }
        Err(halt) => {
            *steps = halt.steps;
            *place = halt.touch.place();
            hand_back(0 < halt.steps, halt.machine, registers, cycles);
            u8::from(halt.touch.refusal())
        }
    }
}

// A run of at most `bound` steps, any number of them, with some addresses guarded against reads and some against stores.
#[unsafe(no_mangle)]
pub extern "C" fn mos6502_guarded_run(
    registers: &mut u64,
    cycles: &mut u64,
    steps: &mut u64,
    place: &mut u16,
    bound: u64,
    lines: u8,
    reads: &[u8; MAP_SIZE],
    stores: &[u8; MAP_SIZE],
    memory: &mut [u8],
) -> u8
    ensures { (
      record {
        answer = result;
        steps = steps.new;
        place = place.new;
        registers = registers.new;
        cycles = cycles.new;
      },
      memory.new,
    )
        ≡ guarded_on_numbers
        (in_map reads.now)
        (in_map stores.now)
        bound
        lines
        registers.old
        cycles.old
        memory.old }
{
    let guarded = guarded_run(
        machine_from(*registers, *cycles),
        bound,
        lines_from(lines),
        Guards { reads, stores },
        memory,
    );
    hand_over(guarded, registers, cycles, steps, place)
}

// The same with some addresses sealed: guarded against reads, and zeros before the first step. All of the memory that is left
// may be handed out.
#[unsafe(no_mangle)]
pub extern "C" fn mos6502_extract(
    registers: &mut u64,
    cycles: &mut u64,
    steps: &mut u64,
    place: &mut u16,
    bound: u64,
    lines: u8,
    sealed: &[u8; MAP_SIZE],
    memory: &mut [u8],
) -> u8
    ensures { (
      record {
        answer = result;
        steps = steps.new;
        place = place.new;
        registers = registers.new;
        cycles = cycles.new;
      },
      memory.new,
    )
        ≡ extract_on_numbers
        (in_map sealed.now)
        bound
        lines
        registers.old
        cycles.old
        memory.old }
{
    let guarded = extract(
        machine_from(*registers, *cycles),
        bound,
        lines_from(lines),
        sealed,
        memory,
    );
    hand_over(guarded, registers, cycles, steps, place)
}

// A run of at most `bound` steps, any number of them, that is over when the counter is at `stop` before a step.
#[unsafe(no_mangle)]
pub extern "C" fn mos6502_run_to(
    registers: &mut u64,
    cycles: &mut u64,
    steps: &mut u64,
    stop: u16,
    bound: u64,
    lines: u8,
    memory: &mut [u8],
) -> u8
    ensures { Gives
        (run_to_on_numbers (length memory.old) stop bound lines registers.old cycles.old)
        memory.old
        (record { answer = result; steps = steps.new; registers = registers.new; cycles = cycles.new })
        memory.new }
{
    let ended = run_to(
        machine_from(*registers, *cycles),
        stop,
        bound,
        lines_from(lines),
        memory,
    );
    *steps = ended.steps;
    hand_back(0 < ended.steps, ended.machine, registers, cycles);
    stop_answer(ended, stop)
}

// The version of these functions. A host asks for it by this name, so that an older archive does not link, and the linker says
// what to do. It changes, in the name too, with any change that a host would have to follow.
#[unsafe(no_mangle)]
pub extern "C" fn mos6502_guard_version_1_run_rt_staticlib_mos6502_guard() -> u8
    ensures { result ≡ 1 }
{
    1
}
