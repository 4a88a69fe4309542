// The line of a run's answer.
ghost use Rattle.std.specs.Prelude.{◌+◌, ◌≤◌};
ghost use Rattle.text_writing.specs.Written.{Writes};
ghost use Rattle.sentences.specs.Line.{all_fields, line, longest_line};

use manual::{Ended, Reason};
use text_writing::Writer;
use trace_fields::put_machine;

// The most characters that the line has.
pub const LONGEST_LINE: usize = 64;

fn put_fields(out: &mut Writer, ended: Ended)
    ensures wrote { Writes out.old (all_fields ended) out.new }
    ensures upper_bound { out.new.at ≤ out.old.at + longest_line }
{
    out.put_decimal(u8::from(ended.reason) as u64);
    out.put_spaced_decimal(ended.steps);
    out.put_byte(b' ');
    put_machine(out, ended.machine);
    out.put_byte(b'\n');
}

// Writes the line.
pub fn put_line(out: &mut Writer, ended: Ended)
    ensures wrote { Writes out.old (line ended) out.new }
    ensures upper_bound { out.new.at ≤ out.old.at + longest_line }
{
    if let Reason::MemoryNotFull = ended.reason {
        out.put_text(b"1\n");
    } else {
        put_fields(out, ended);
    }
}
