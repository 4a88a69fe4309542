// One step of the core against what a text line says of it.
ghost use Rattle.std.specs.Prelude.{◌≡◌, true, length};
ghost use Rattle.manual.specs.Micro.{exec};
ghost use Rattle.manual.specs.Stepping.{step};
ghost use Rattle.program_replay.specs.Comparison.{machine_at, lines_at, levels_byte, compared, judged};

use cpu_record::step_by_record;
use manual::{Lines, Machine};
use memory::Memory;
use mos6502_numbers::lines_from;
use registers::{Registers, Status, flag};
use replay_list::State;

// The first field in which a step and its text line differ. `Same` is a variant and no None: the definition `compared` names it.
#[derive(Clone, Copy, PartialEq, Eq)]
pub(crate) enum Verdict {
    Same,
    Malformed,
    Answer,
    Counter,
    Accumulator,
    X,
    Y,
    Stack,
    Status,
    Cycles,
    Levels,
    Memory,
}

// The machine of a state that was read.
fn machine_at(state: State) -> Machine
    ensures { result ≡ machine_at state }
{
    let status = Status::pulled(state.status);
    let registers = Registers::new(
        state.accumulator,
        state.x,
        state.y,
        state.stack,
        state.counter,
        status,
    );
    Machine::new(registers, state.cycles, state.levels / 4 % 2 != 1)
}

// The levels that a step from a state that was read is given.
fn lines_at(state: State) -> Lines
    ensures { result ≡ lines_at state }
{
    lines_from(state.levels)
}

// The levels as a text line has them: the present ones, and the last one of NMI.
#[tactic(auto, unfolding(crate::specs::Comparison::levels_byte))]
fn levels_byte(lines: Lines, nmi: bool) -> u8
    ensures { result ≡ levels_byte lines nmi }
{
    flag(!lines.nmi) + flag(!lines.irq) * 2 + flag(!nmi) * 4
}

// The status is compared as the byte that PHP pushes, and the last level of NMI with the present ones, which hold.
#[tactic(auto, unfolding(crate::specs::Comparison::compared))]
fn compare(machine: Machine, lines: Lines, state: State, same: bool) -> Verdict
    ensures { result ≡ compared machine lines state same }
{
    let registers = machine.registers;
    if registers.counter != state.counter {
        Verdict::Counter
    } else if registers.accumulator != state.accumulator {
        Verdict::Accumulator
    } else if registers.x != state.x {
        Verdict::X
    } else if registers.y != state.y {
        Verdict::Y
    } else if registers.stack.0 != state.stack {
        Verdict::Stack
    } else if registers.status.pushed() != state.status {
        Verdict::Status
    } else if machine.cycles != state.cycles {
        Verdict::Cycles
    } else if levels_byte(lines, machine.nmi) != state.levels {
        Verdict::Levels
    } else if same {
        Verdict::Same
    } else {
        Verdict::Memory
    }
}

// Makes the step by a lent record, and compares the answer, the machine and the whole memory after it.
#[tactic(auto, unfolding(crate::specs::Comparison::judged))]
pub(crate) fn judge(before: State, after: State, memory: &mut Memory, expected: &Memory) -> Verdict
    ensures { result
        ≡ judged
        (exec (step (length memory.old) (lines_at before) (machine_at before)) memory.old)
        (lines_at before)
        after
        expected.now }
{
    let lines = lines_at(before);
    let stepped = step_by_record(machine_at(before), lines, memory);
    if u8::from(stepped.reason) != after.number {
        return Verdict::Answer;
    }
    compare(stepped.machine, lines, after, *memory == *expected)
}
