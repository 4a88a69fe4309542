// A run that is halted before a step that would touch a guarded byte: read one that is guarded against reads, so that nothing it
// gives was made with one, or store to one that is guarded against stores.
#![tactic(auto)]

ghost use Rattle.std.specs.Prelude.{◌≡◌, ◌+◌, ◌-◌, ◌<◌, false, not, ◌&&◌, length, if◌then◌else◌, Some};
ghost use Rattle.manual.specs.Outcomes.{machine_of};
ghost use Rattle.manual.specs.Interrupts.{due};
ghost use Rattle.cpu.specs.Inner.Turning.{raised, Calm, Fits, stretch};
ghost use Rattle.guard_maps.specs.Maps.{in_map};
ghost use Rattle.guard.specs.Guarded.{guarded_full, guarded};

use cpu::{fitting, reach};
use guard_maps::{Guards, Touch};
use guard_near::Near;
use manual::{Ended, FULL_MEMORY, HIGHEST_COUNT, Lines, Machine, Reason, SERVING_CYCLES};
use memory::{Address, Memory, get_byte};
use opcode_effects::STEP;
use opcode_rows::dispatch;
use registers::Registers;
use stack::serve;

pub mod extract; // extract.rt: a run whose memory may be handed out whole

// What the next step would touch, the steps that were made before it, and the machine after them.
#[derive(Clone, Copy)]
pub struct Halt {
    pub touch: Touch,
    pub steps: u64,
    pub machine: Machine,
}

// What a guarded run answers: the run's own answer, if no step touched a guarded byte, or where it was halted.
pub type Guarded = Result<Ended, Halt>;

// The machine after some steps of a patrol: if one was made it has the present level of NMI.
fn kept(begun: bool, start: Machine, nmi: bool, registers: Registers, cycles: u64) -> Machine
    ensures { result ≡ machine_of registers cycles (if begun then nmi else start.nmi) }
{
    Machine::new(registers, cycles, if begun { nmi } else { start.nmi })
}

// The steps from `made` to `bound` on a full memory, with IRQ high and NMI not falling. The compiler puts all that a step does into
// this loop, as it does in cpu's: so no line and no room is looked at in it, one number counts the steps down and the cycles up,
// and `dispatch` has no other caller in what is linked. `look_ahead` has two, so that it stays out of the loop.
fn patrol(
    start: Machine,
    nmi: bool,
    made: u64,
    bound: u64,
    guards: Guards,
    memory: &mut Memory,
) -> Guarded
    requires { ((start.nmi && not nmi) ≡ false) × Fits start.cycles (bound - made) }
    ensures { (result, memory.new)
        ≡ guarded_full
        (in_map guards.entry.reads.now)
        (in_map guards.entry.stores.now)
        (bound - made)
        made
        (raised nmi)
        start
        memory.old }
{
    if HIGHEST_COUNT < start.cycles {
        return Ok(Ended::new(Reason::NoCycleRoom, made, start));
    }
    let near = Near::new(guards);
    let mut registers = start.registers.kept_apart();
    let mut clock: u64 = (bound - made - 1) * STEP;
    loop {
        if near.may_touch(registers, memory) {
            let steps = bound - 1 - clock / STEP;
            let cycles = start.cycles + clock % STEP;
            let machine = kept(made < steps, start, nmi, registers, cycles);
            let high = Lines { irq: true, nmi };
            if let Some(touch) = guards.look_ahead(machine, high, memory) {
                return Err(Halt {
                    touch,
                    steps,
                    machine,
                });
            }
        }
        let opcode = get_byte(memory, Address(registers.counter));
        match dispatch(opcode, registers, memory) {
            Some(performed) => {
                registers = performed.registers.kept_apart();
                let next = clock.wrapping_sub(performed.ticks);
                if clock < performed.ticks {
                    let cycles = start.cycles + next.wrapping_add(STEP);
                    let left = Machine::new(registers, cycles, nmi);
                    return Ok(Ended::new(Reason::Made, bound, left));
                }
                clock = next;
            }
            None => {
                let steps = bound - 1 - clock / STEP;
                let cycles = start.cycles + clock % STEP;
                let left = kept(made < steps, start, nmi, registers, cycles);
                return Ok(Ended::new(Reason::NotAnOpcode, steps, left));
            }
        }
    }
}

// A line is served, which is the step after `steps`, unless that touches a guarded byte.
fn serve_line(
    vector: u16,
    start: Machine,
    steps: u64,
    lines: Lines,
    guards: Guards,
    memory: &mut Memory,
) -> Guarded
    requires { (due lines start ≡ Some vector) × (steps + 1 < 18446744073709551616) }
    ensures { (result, memory.new)
        ≡ guarded_full (in_map guards.entry.reads.now) (in_map guards.entry.stores.now) 1 steps lines start memory.old }
{
    if HIGHEST_COUNT < start.cycles {
        return Ok(Ended::new(Reason::NoCycleRoom, steps, start));
    }
    if let Some(touch) = guards.look_ahead(start, lines, memory) {
        return Err(Halt {
            touch,
            steps,
            machine: start,
        });
    }
    let registers = serve(vector, start.registers, memory);
    let left = Machine::new(registers, start.cycles + SERVING_CYCLES, lines.nmi);
    Ok(Ended::new(Reason::Made, steps + 1, left))
}

// A turn, after cpu's: a line that is due is served, or the steps to `bound` are made, between which no line can become due.
fn turn(
    start: Machine,
    steps: u64,
    bound: u64,
    lines: Lines,
    guards: Guards,
    memory: &mut Memory,
) -> Guarded
    requires { Calm lines (bound - steps) × (steps < bound) × Fits start.cycles (bound - steps) }
    ensures { (result, memory.new)
        ≡ guarded_full
        (in_map guards.entry.reads.now)
        (in_map guards.entry.stores.now)
        (stretch (due lines start) (bound - steps))
        steps
        lines
        start
        memory.old }
{
    match lines.due(start) {
        Some(vector) => serve_line(vector, start, steps, lines, guards, memory),
        None => patrol(start, lines.nmi, steps, bound, guards, memory),
    }
}

// The steps from `made` to `bound` of a guarded run on a full memory, turn by turn, for whoever makes it in parts. `made` are
// counted already.
pub fn guarded_part(
    start: Machine,
    made: u64,
    bound: u64,
    lines: Lines,
    guards: Guards,
    memory: &mut Memory,
) -> Guarded
    ensures { (result, memory.new)
        ≡ guarded_full
        (in_map guards.entry.reads.now)
        (in_map guards.entry.stores.now)
        (bound - made)
        made
        lines
        start
        memory.old }
{
    let mut machine = start;
    let mut steps: u64 = made;
    // A loop and no `for`: each turn says itself how many steps it made.
    while steps < bound {
        let far = steps + reach(lines.irq, fitting(bound - steps, machine.cycles));
        let ended = turn(machine, steps, far, lines, guards, memory)?;
        if !ended.reason.is_made() {
            return Ok(ended);
        }
        machine = ended.machine;
        steps = ended.steps;
    }
    Ok(Ended::new(Reason::Made, steps, machine))
}

// A run of at most `bound` steps, any number of them, with some addresses guarded against reads and some against stores.
#[tactic(auto, unfolding(crate::specs::Guarded::guarded))]
pub fn guarded_run(
    machine: Machine,
    bound: u64,
    lines: Lines,
    guards: Guards,
    memory: &mut [u8],
) -> Guarded
    ensures { (result, memory.new)
        ≡ guarded
        (in_map guards.entry.reads.now)
        (in_map guards.entry.stores.now)
        (length memory.old)
        bound
        lines
        machine
        memory.old }
{
    let Some(memory) = memory.as_mut_array::<FULL_MEMORY>() else {
        return Ok(Ended::new(Reason::MemoryNotFull, 0, machine));
    };
    guarded_part(machine, 0, bound, lines, guards, memory)
}
