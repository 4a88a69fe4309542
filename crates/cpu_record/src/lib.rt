// A step on a machine that the caller keeps in a record of its own and lends (P13).
#![tactic(auto)]

ghost use Rattle.std.specs.Prelude.{length};
ghost use Rattle.manual.specs.Micro.{Gives};
ghost use Rattle.manual.specs.Stepping.{step};
ghost use Rattle.cpu_record.specs.Record.{step_record};

use cpu::single_step;
use manual::{Lines, Machine, Reason, Stepped};

// What a step on a record answers: the reason, and the first address on the bus. The machine is in the record.
#[derive(Clone, Copy)]
pub struct StepAnswer {
    pub reason: Reason,
    pub first: u16,
}

// A step from the machine of the record, which it renews: registers, count and last level of NMI. A refusal leaves the record as
// it was.
pub fn step_record(machine: &mut Machine, lines: Lines, memory: &mut [u8]) -> StepAnswer
    ensures { Gives (step_record (length memory.old) lines machine.old) memory.old (result, machine.new) memory.new }
{
    let stepped = single_step(*machine, lines, memory);
    *machine = stepped.machine;
    StepAnswer {
        reason: stepped.reason,
        first: stepped.first,
    }
}

// The same step if the machine is had by value: it is lent as a record for the one call.
pub fn step_by_record(mut machine: Machine, lines: Lines, memory: &mut [u8]) -> Stepped
    ensures { Gives (step (length memory.old) lines machine) memory.old result memory.new }
{
    let answer = step_record(&mut machine, lines, memory);
    Stepped {
        reason: answer.reason,
        first: answer.first,
        machine,
    }
}
