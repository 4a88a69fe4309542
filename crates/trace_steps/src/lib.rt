// The steps of a run with idle lines, and what is shown of each: the entries of a trace, or of a timetable.
#![tactic(auto)]

ghost use Rattle.std.specs.Prelude.{◌+◌, ◌*◌, ◌≤◌, length};
ghost use Rattle.manual.specs.Micro.{Gives};
ghost use Rattle.manual.specs.Interrupts.{idle};
ghost use Rattle.manual.specs.Stepping.{step_full, long_run};
ghost use Rattle.text_writing.specs.Written.{Writes};
ghost use Rattle.trace_text.specs.Entries.{longest};
ghost use Rattle.trace_text.specs.declared.View.TheVariants.{States, Steps};
ghost use Rattle.trace_steps.specs.Traces.{shown, trace};

use cpu::single_step;
use listing::{LONGEST_INSTRUCTION, put_instruction};
use manual::{Ended, FULL_MEMORY, Lines, Machine, Reason, Stepped};
use memory::Memory;
use text_writing::Writer;
use trace_line::put_line;
use trace_text::{View, put_entry};

// A step, and the state after it if it was made. No instruction is written down: it is not shown.
fn put_state(out: &mut Writer, machine: Machine, memory: &mut Memory) -> Stepped
    ensures gives { Gives (step_full idle machine) memory.old result memory.new }
    ensures wrote { Writes out.old (shown States memory.old machine result) out.new }
    ensures next_bound { out.new.at ≤ out.old.at + longest States }
{
    let stepped = single_step(machine, Lines::idle(), memory);
    if !stepped.reason.is_made() {
        return stepped;
    }
    put_line(out, stepped.machine);
    stepped
}

// A step, and its line of a timetable if it was made. The instruction is written down first, for the step may store over it.
fn put_timed(out: &mut Writer, machine: Machine, memory: &mut Memory) -> Stepped
    ensures gives { Gives (step_full idle machine) memory.old result memory.new }
    ensures wrote { Writes out.old (shown Steps memory.old machine result) out.new }
    ensures next_bound { out.new.at ≤ out.old.at + longest Steps }
{
    let mut instruction = [0u8; LONGEST_INSTRUCTION];
    let mut listed = Writer::new(&mut instruction);
    put_instruction(&mut listed, memory, machine.registers.counter);
    let size = listed.place();
    let stepped = single_step(machine, Lines::idle(), memory);
    if !stepped.reason.is_made() {
        return stepped;
    }
    let instruction = &instruction[..size];
    let cycles = stepped.machine.cycles - machine.cycles;
    put_entry(
        out,
        View::Steps,
        instruction,
        cycles,
        stepped.first,
        stepped.machine,
    );
    stepped
}

// A step, and its entry if it was made.
fn put_step(out: &mut Writer, view: View, machine: Machine, memory: &mut Memory) -> Stepped
    ensures gives { Gives (step_full idle machine) memory.old result memory.new }
    ensures wrote { Writes out.old (shown view memory.old machine result) out.new }
    ensures next_bound { out.new.at ≤ out.old.at + longest view }
{
    match view {
        View::States => put_state(out, machine, memory),
        View::Steps => put_timed(out, machine, memory),
    }
}

// At most `bound` steps from a machine, and what is shown of each. What does not fit is dropped.
pub fn put_steps(
    out: &mut Writer,
    view: View,
    start: Machine,
    bound: u64,
    memory: &mut [u8],
) -> Ended
    ensures gives { Gives (long_run (length memory.old) bound idle start) memory.old result memory.new }
    ensures wrote { Writes out.old (trace view bound start memory.old) out.new }
    ensures size_bound { out.new.at ≤ out.old.at + longest view * bound }
{
    let Some(memory) = memory.as_mut_array::<FULL_MEMORY>() else {
        return Ended::new(Reason::MemoryNotFull, 0, start);
    };
    let mut left = start;
    for steps in 0..bound {
        let stepped = put_step(out, view, left, memory);
        left = stepped.machine;
        if !stepped.reason.is_made() {
            return Ended::new(stepped.reason, steps, left);
        }
    }
    Ended::new(Reason::Made, bound, left)
}
