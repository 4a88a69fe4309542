// An entry of a log: the last seven fields of the report's line, and LF.
//
//   CYCLES COUNTER A X Y S STATUS
//
// The cycles are decimal without leading zeros, the others capital hexadecimal, the status as PHP pushes it; one space
// stands between two fields. A line that is spelled in any other way is malformed.
#![tactic(auto)]

ghost use Rattle.std.specs.Prelude.{◌+◌, ◌≤◌, ◌≡◌, drop};
ghost use Rattle.text_writing.specs.Written.{Writes};
ghost use Rattle.trace_line.specs.Lines.{line_text, longest_line};
ghost use Rattle.text_reading.specs.Numbers.{nowhere};
ghost use Rattle.text_reading.specs.Found.{found};
ghost use Rattle.trace_line.specs.Inner.Found.{fields_found};
ghost use Rattle.trace_line.specs.Fields.{cycles_of, field_at, fields_of, state_of, spelled_by, line_of, line_from};

use manual::Machine;
use registers::{Registers, Status};
use text_reading::{Reading, read_byte, read_count, read_mark, read_word, rest};
use text_writing::Writer;
use trace_fields::put_machine;

// The seven numbers of a line, and where the text goes on.
#[derive(Clone, Copy)]
struct Fields {
    cycles: u64,
    counter: u16,
    accumulator: u8,
    x: u8,
    y: u8,
    stack: u8,
    status: u8,
    next: usize,
}

// The state that a line spells, and where the text goes on.
#[derive(Clone, Copy)]
pub struct Spelled {
    pub machine: Machine,
    pub next: usize,
}

// If a text begins with 0, that is the whole number: so there is no leading zero.
fn read_cycles(text: &[u8]) -> Option<Reading<u64>>
    ensures { result ≡ found (cycles_of text.now) }
{
    match read_mark(text, 0, b'0') {
        Some(next) => Some(Reading { value: 0, next }),
        None => read_count(text, 0),
    }
}

// A space and a byte. As `read_spaced_byte` of replay_list: each promises the definition of its own format.
fn read_field(text: &[u8], at: usize) -> Option<Reading<u8>>
    ensures { result ≡ found (field_at text.now at) }
{
    read_byte(text, read_mark(text, at, b' ')?)
}

// The fields with which a text begins, if they are there, and LF follows.
fn read_fields(text: &[u8]) -> Option<Fields>
    ensures { result ≡ fields_found (fields_of text.now) }
{
    let cycles = read_cycles(text)?;
    let space = read_mark(text, cycles.next, b' ')?;
    let counter = read_word(text, space)?;
    let accumulator = read_field(text, counter.next)?;
    let x = read_field(text, accumulator.next)?;
    let y = read_field(text, x.next)?;
    let stack = read_field(text, y.next)?;
    let status = read_field(text, stack.next)?;
    let next = read_mark(text, status.next, b'\n')?;
    Some(Fields {
        cycles: cycles.value,
        counter: counter.value,
        accumulator: accumulator.value,
        x: x.value,
        y: y.value,
        stack: stack.value,
        status: status.value,
        next,
    })
}

// The last level of NMI is high: a log is of a run with idle lines.
fn state_of(fields: Fields) -> Machine
    ensures { result ≡ state_of fields }
{
    let registers = Registers::new(
        fields.accumulator,
        fields.x,
        fields.y,
        fields.stack,
        fields.counter,
        Status::pulled(fields.status),
    );
    Machine::new(registers, fields.cycles, true)
}

// A status byte is one that PHP pushes if its flags, pushed again, give it back: bits 4 and 5 are set.
fn spelled_by(fields: Fields) -> Option<Spelled>
    requires { fields.next ≡ nowhere → ⊥ }
    ensures { result ≡ spelled_by fields }
{
    let machine = state_of(fields);
    if machine.registers.status.pushed() != fields.status {
        return None;
    }
    Some(Spelled {
        machine,
        next: fields.next,
    })
}

// The line that stands at a place; none if what stands there is malformed. It is read from the rest of the text: there the
// places are small, and none of them can be taken for the largest usize.
pub fn read_state(text: &[u8], at: usize) -> Option<Spelled>
    ensures { result ≡ line_from at (line_of (drop at text.now)) }
{
    let spelled = spelled_by(read_fields(rest(text, at))?)?;
    Some(Spelled {
        next: at + spelled.next,
        ..spelled
    })
}

// The most characters that the line of a state has.
pub const LONGEST_LINE: usize = 41;

// Writes the line of a state.
pub fn put_line(out: &mut Writer, machine: Machine)
    ensures wrote { Writes out.old (line_text machine) out.new }
    ensures upper_bound { out.new.at ≤ out.old.at + longest_line }
{
    put_machine(out, machine);
    out.put_byte(b'\n');
}
