// A run by cycles: it is over when so many are spent.
#![tactic(auto)]

ghost use Rattle.std.specs.Prelude.{◌≡◌, ◌+◌, ◌-◌, ◌/◌, ◌<◌, length};
ghost use Rattle.manual.specs.Micro.{Gives};
ghost use Rattle.manual.specs.Stepping.{run_cycles};

use cpu::long_run;
use manual::{Ended, FULL_MEMORY, HIGHEST_BOUND, Lines, Machine, Reason};

// How many steps begin before `left` cycles are spent, whatever they are: each takes at most seven.
pub fn sure_steps(left: u64) -> u64
    requires { 0 < left }
    ensures { result ≡ (left - 1) / 7 + 1 }
{
    (left - 1) / 7 + 1
}

// A run that is over when `limit` or more cycles are spent. It is made of runs by steps, so that the loop need not look at the
// limit: each is of as many as begin before it is spent. The loop counts cycles, which is no index. The length is tested here and
// the slice is lent on, since long_run promises its steps of a slice.
pub fn run_cycles(machine: Machine, limit: u64, lines: Lines, memory: &mut [u8]) -> Ended
    ensures { Gives (run_cycles (length memory.old) limit lines machine) memory.old result memory.new }
{
    if memory.len() != FULL_MEMORY {
        return Ended::new(Reason::MemoryNotFull, 0, machine);
    }
    if HIGHEST_BOUND < limit {
        return Ended::new(Reason::BoundTooHigh, 0, machine);
    }
    let from = machine.cycles;
    let mut after = machine;
    let mut steps: u64 = 0;
    while after.cycles - from < limit {
        let left = limit - (after.cycles - from);
        let ended = long_run(after, sure_steps(left), lines, memory);
        after = ended.machine;
        steps += ended.steps;
        if !ended.reason.is_made() {
            return Ended::new(ended.reason, steps, after);
        }
    }
    Ended::new(Reason::Made, steps, after)
}
