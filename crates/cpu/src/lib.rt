// A step and a bounded run, after single_step and run of cpu.rs.
#![tactic(auto)]

ghost use Rattle.std.specs.Prelude.{◌≡◌, ◌+◌, ◌-◌, ◌*◌, ◌<◌, ◌≤◌, length, if◌then◌else◌, nat_lt};
ghost use Rattle.manual.specs.Micro.{Gives};
ghost use Rattle.manual.specs.Outcomes.{machine_of, ended};
ghost use Rattle.manual.specs.Stepping.{highest_count, highest_bound, step, run_full, run, long_run};
ghost use Rattle.cpu.specs.Inner.Travelling.{travelled, travelling};
ghost use Rattle.cpu.specs.Inner.Turning.{raised, serving, Calm, reach, Fits, fitting, turning};

use manual::{
    Ended, FULL_MEMORY, HIGHEST_BOUND, HIGHEST_COUNT, Lines, Machine, Reason, SERVING_CYCLES,
    Stepped,
};
use memory::{Address, Memory, get_byte};
use opcode_effects::STEP;
use opcode_rows::dispatch;
use registers::Registers;
use stack::serve;

// What a turn leaves: the answer of its steps, and the first address of the last of them.
#[derive(Clone, Copy)]
pub struct Travelled {
    pub ended: Ended,
    pub first: u16,
}

impl Travelled {
    // From its parts.
    fn new(reason: Reason, steps: u64, first: u16, machine: Machine) -> Travelled
        ensures { result ≡ travelled first (ended reason steps machine) }
    {
        Travelled {
            ended: Ended::new(reason, steps, machine),
            first,
        }
    }
}

// A line is served, which is one step: the last level of NMI becomes `nmi`.
fn serve_line(
    vector: u16,
    start: Registers,
    count: u64,
    nmi: bool,
    memory: &mut Memory,
) -> Travelled
    requires { (vector + 1 < 65536) × (count ≤ highest_count) }
    ensures { Gives (serving vector start count nmi) memory.old result memory.new }
{
    let registers = serve(vector, start, memory);
    let left = Machine::new(registers, count + SERVING_CYCLES, nmi);
    Travelled::new(Reason::Made, 1, 0, left)
}

// The `bound` steps of a turn on a full memory with IRQ high and NMI at the level that it had before. The compiler puts all that a
// step does into this loop and keeps the registers in the host's: docs/RATE.md says what that takes. So no line and no room is
// looked at in it, and one number counts the steps down and the cycles up: `clock` has the steps that follow the next one times
// STEP, and the cycles that were made.
fn walk(start: Registers, count: u64, nmi: bool, bound: u64, memory: &mut Memory) -> Travelled
    requires { (0 < bound) × (bound ≤ 16777216) × (count + 7 * (bound - 1) ≤ highest_count) }
    ensures { Gives (travelling bound 0 0 (raised nmi) (machine_of start count nmi)) memory.old result memory.new }
{
    let mut registers = start.kept_apart();
    let mut clock: u64 = (bound - 1) * STEP;
    loop {
        let opcode = get_byte(memory, Address(registers.counter));
        match dispatch(opcode, registers, memory) {
            Some(performed) => {
                registers = performed.registers.kept_apart();
                let next = clock.wrapping_sub(performed.ticks);
                if clock < performed.ticks {
                    let left = Machine::new(registers, count + next.wrapping_add(STEP), nmi);
                    return Travelled::new(Reason::Made, bound, performed.first, left);
                }
                clock = next;
            }
            None => {
                let left = Machine::new(registers, count + clock % STEP, nmi);
                return Travelled::new(Reason::NotAnOpcode, bound - 1 - clock / STEP, 0, left);
            }
        }
    }
}

// How far a turn goes at most: if IRQ is low, by one step, for after it I may be clear.
pub fn reach(irq: bool, bound: u64) -> u64
    ensures { result ≡ reach irq bound }
{
    if irq { bound } else { 1 }
}

// The most steps of a turn: more cycles than they take fit below a step on the clock.
const MOST_STEPS: u64 = 0x100_0000;

// How many of `bound` steps a turn can make before the last of which no count passes the highest one: each takes at most seven
// cycles. So the loop need not look at the room.
pub fn fitting(bound: u64, cycles: u64) -> u64
    ensures { result ≡ fitting bound cycles }
{
    let room = HIGHEST_COUNT.saturating_sub(cycles);
    bound.min((room / 7 + 1).min(MOST_STEPS))
}

// A turn: a line that is due is served, or steps are made, as many as no line can become due between. The machine that it
// leaves has the present level of NMI, also if no step was made: then it is the one that was given that counts.
pub fn turn(start: Machine, bound: u64, lines: Lines, memory: &mut Memory) -> Travelled
    requires { Calm lines bound × Fits start.cycles bound }
    ensures { Gives (turning bound lines start) memory.old result memory.new }
{
    if HIGHEST_COUNT < start.cycles {
        let left = Machine::new(start.registers, start.cycles, lines.nmi);
        return Travelled::new(Reason::NoCycleRoom, 0, 0, left);
    }
    match lines.due(start) {
        Some(vector) => serve_line(vector, start.registers, start.cycles, lines.nmi, memory),
        None => walk(start.registers, start.cycles, lines.nmi, bound, memory),
    }
}

// The machine after a turn: if no step was made, the one before it.
fn reached(start: Machine, ended: Ended) -> Machine
    ensures { result ≡ (if nat_lt 0 ended.steps then ended.machine else start) }
{
    if 0 < ended.steps {
        ended.machine
    } else {
        start
    }
}

// At most `bound` steps on a full memory, turn by turn. `steps` counts what the turns made, which is no index.
fn travel(start: Machine, bound: u64, lines: Lines, memory: &mut Memory) -> Ended
    ensures { Gives (run_full bound 0 lines start) memory.old result memory.new }
{
    let mut machine = start;
    let mut steps: u64 = 0;
    while steps < bound {
        let far = reach(lines.irq, fitting(bound - steps, machine.cycles));
        let ended = turn(machine, far, lines, memory).ended;
        machine = reached(machine, ended);
        steps += ended.steps;
        if !ended.reason.is_made() {
            return Ended::new(ended.reason, steps, machine);
        }
    }
    Ended::new(Reason::Made, steps, machine)
}

// A step: a turn of one.
pub fn single_step(machine: Machine, lines: Lines, memory: &mut [u8]) -> Stepped
    ensures { Gives (step (length memory.old) lines machine) memory.old result memory.new }
{
    let Some(memory) = memory.as_mut_array::<FULL_MEMORY>() else {
        return Stepped::new(Reason::MemoryNotFull, 0, machine);
    };
    let turned = turn(machine, 1, lines, memory);
    let ended = turned.ended;
    Stepped::new(ended.reason, turned.first, reached(machine, ended))
}

// A run of at most `bound` steps.
pub fn run(machine: Machine, bound: u64, lines: Lines, memory: &mut [u8]) -> Ended
    ensures { Gives (run (length memory.old) bound lines machine) memory.old result memory.new }
{
    let Some(memory) = memory.as_mut_array::<FULL_MEMORY>() else {
        return Ended::new(Reason::MemoryNotFull, 0, machine);
    };
    if HIGHEST_BOUND < bound {
        return Ended::new(Reason::BoundTooHigh, 0, machine);
    }
    travel(machine, bound, lines, memory)
}

// A run of any number of steps: a run of a million and then of another million is no other (the theorem `lunch`).
pub fn long_run(machine: Machine, steps: u64, lines: Lines, memory: &mut [u8]) -> Ended
    ensures { Gives (long_run (length memory.old) steps lines machine) memory.old result memory.new }
{
    let Some(memory) = memory.as_mut_array::<FULL_MEMORY>() else {
        return Ended::new(Reason::MemoryNotFull, 0, machine);
    };
    travel(machine, steps, lines, memory)
}
