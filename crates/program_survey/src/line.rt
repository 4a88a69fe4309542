// The line of a survey.
ghost use Rattle.std.specs.Prelude.{◌+◌, ◌≤◌};
ghost use Rattle.text_writing.specs.Written.{Writes};
ghost use Rattle.tape_loading.specs.Answers.{verdict_in};
ghost use Rattle.tape_rescuing.specs.Rescuing.{report_of};
ghost use Rattle.program_survey.specs.Line.{read_fields, rescue_fields, line, longest_line};

use laws::answers::Refusal;
use tape_loading::{Verdict, number_and_reach};
use tape_rescuing::{Rescued, Tally, numbers_of};
use text_writing::Writer;

fn put_read(out: &mut Writer, verdict: Verdict)
    ensures wrote { Writes out.old (read_fields (verdict_in verdict)) out.new }
    ensures upper_bound { out.new.at ≤ out.old.at + 45 }
{
    let (answer, reach) = number_and_reach(verdict);
    out.put_decimal(answer as u64);
    out.put_spaced_decimal(reach.good);
    out.put_spaced_decimal(reach.place as u64);
}

fn put_rescued(out: &mut Writer, rescued: Result<Rescued, Refusal>)
    ensures wrote { Writes out.old (rescue_fields (report_of rescued)) out.new }
    ensures upper_bound { out.new.at ≤ out.old.at + 67 }
{
    let (answer, numbers) = numbers_of(rescued);
    let Tally {
        kept,
        dropped,
        first,
    } = numbers.tally;
    out.put_spaced_decimal(answer as u64);
    out.put_spaced_decimal(kept);
    out.put_spaced_decimal(dropped);
    out.put_spaced_decimal(first as u64);
}

// The most characters that the line has.
pub(crate) const LONGEST_LINE: usize = 113;

// Writes the line.
pub fn put_line(out: &mut Writer, verdict: Verdict, rescued: Result<Rescued, Refusal>)
    ensures wrote { Writes out.old (line (verdict_in verdict) (report_of rescued)) out.new }
    ensures upper_bound { out.new.at ≤ out.old.at + longest_line }
{
    put_read(out, verdict);
    put_rescued(out, rescued);
    out.put_byte(b'\n');
}
