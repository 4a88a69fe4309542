// A run that is over when the counter is at an address before a step. That address is guarded against reads, since a step from it
// reads the opcode there: so the run goes at the pace of a guarded one, and where it is halted the counter is looked at.
#![tactic(auto)]

ghost use Rattle.std.specs.Prelude.{◌+◌, ◌<◌, ◌≡◌, true, false, eqb, length};
ghost use Rattle.manual.specs.Micro.{Gives};
ghost use Rattle.manual.specs.Stepping.{run_full};
ghost use Rattle.guard_maps.specs.Maps.{in_map, nowhere};
ghost use Rattle.guard_stop.specs.Stop.{run_to, stop_answer};
ghost use Rattle.guard_stop.specs.Inner.Nearing.{Nears};

use guard::guarded_part;
use guard_maps::{Guards, Map, empty_map, put_in};
use laws::answers::Refusal;
use manual::{Ended, FULL_MEMORY, Lines, Machine, Reason};
use memory::Memory;

// Whether a machine is at an address.
fn is_at(machine: Machine, stop: u16) -> bool
    ensures { result ≡ eqb machine.registers.counter stop }
{
    machine.registers.counter == stop
}

// One step, with nothing guarded.
fn step_once(start: Machine, steps: u64, lines: Lines, none: &Map, memory: &mut Memory) -> Ended
    requires { (in_map none.now ≡ nowhere) × (steps + 1 < 18446744073709551616) }
    ensures { Gives (run_full 1 steps lines start) memory.old result memory.new }
{
    let guards = Guards {
        reads: none,
        stores: none,
    };
    match guarded_part(start, steps, steps + 1, lines, guards, memory) {
        Ok(ended) => ended,
        Err(halt) => Ended::new(Reason::Made, halt.steps, halt.machine),
    }
}

// Some steps of the run to `stop` from another address, one at least unless it is refused: all of them or, while IRQ is low and a
// line can become due between two, one. `guards` has `stop` against reads, and nothing against stores.
fn approach(
    start: Machine,
    steps: u64,
    stop: u16,
    bound: u64,
    lines: Lines,
    guards: Guards,
    memory: &mut Memory,
) -> Ended
    requires { (in_map guards.reads.now stop ≡ true)
        × (in_map guards.stores.now ≡ nowhere)
        × (steps < bound)
        × (eqb start.registers.counter stop ≡ false) }
    ensures { Nears stop bound lines steps start memory.old result memory.new }
{
    if !lines.irq {
        return step_once(start, steps, lines, guards.stores, memory);
    }
    match guarded_part(start, steps, bound, lines, guards, memory) {
        Ok(ended) => {
            if is_at(ended.machine, stop) {
                return Ended::new(Reason::Made, ended.steps, ended.machine);
            }
            ended
        }
        Err(halt) => {
            if steps < halt.steps {
                return Ended::new(Reason::Made, halt.steps, halt.machine);
            }
            step_once(start, steps, lines, guards.stores, memory)
        }
    }
}

// A run of at most `bound` steps, any number of them, that is over when the counter is at `stop` before a step.
pub fn run_to(start: Machine, stop: u16, bound: u64, lines: Lines, memory: &mut [u8]) -> Ended
    ensures { Gives (run_to (length memory.old) stop bound lines start) memory.old result memory.new }
{
    let Some(memory) = memory.as_mut_array::<FULL_MEMORY>() else {
        return Ended::new(Reason::MemoryNotFull, 0, start);
    };
    let none = empty_map();
    let mut stops = empty_map();
    put_in(&mut stops, stop);
    let guards = Guards {
        reads: &stops,
        stores: &none,
    };
    let mut machine = start;
    let mut steps: u64 = 0;
    // A loop and no `for`: each turn may make several steps.
    while steps < bound {
        if is_at(machine, stop) {
            return Ended::new(Reason::Made, steps, machine);
        }
        let ended = approach(machine, steps, stop, bound, lines, guards, memory);
        if !ended.reason.is_made() {
            return ended;
        }
        machine = ended.machine;
        steps = ended.steps;
    }
    Ended::new(Reason::Made, steps, machine)
}

// The answer of such a run: 0 only if the counter is at the address. A number, since mos6502_run_to alone asks for it.
pub fn stop_answer(ended: Ended, stop: u16) -> u8
    ensures { result ≡ stop_answer stop ended }
{
    if ended.reason.is_made() && !is_at(ended.machine, stop) {
        return u8::from(Refusal::NotThere);
    }
    u8::from(ended.reason)
}
