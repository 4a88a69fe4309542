// What is said of a trace that was checked.
ghost use Rattle.std.specs.Prelude.{◌+◌, ◌≤◌, length};
ghost use Rattle.text_writing.specs.Delivered.{answer_in};
ghost use Rattle.text_writing.specs.Written.{Writes};
ghost use Rattle.trace_text.specs.Findings.{accepted_lines, bad_line, finding, verdict_line, longest_finding};

use laws::answers::Refusal;
use text_writing::{Writer, answer_in};
use trace_line::LONGEST_LINE;

// The most characters that a finding has, and that the line of a verdict has with the entry that would have been right.
pub const LONGEST_FINDING: usize = 90;

pub const LONGEST_VERDICT: usize = 25 + LONGEST_LINE;

fn put_accepted(out: &mut Writer, lines: u64)
    ensures wrote { Writes out.old (accepted_lines lines) out.new }
    ensures upper_bound { out.new.at ≤ out.old.at + longest_finding }
{
    out.put_text(b"accepted: every line follows, lines: ");
    out.put_decimal(lines);
    out.put_text(b"\n");
}

fn put_bad(out: &mut Writer, line: u64, why: &[u8])
    ensures wrote { Writes out.old (bad_line line why.now) out.new }
    ensures upper_bound { out.new.at ≤ out.old.at + (34 + length why.now) }
{
    out.put_text(b"refused: line ");
    out.put_decimal(line);
    out.put_text(why);
}

// Writes the sentence for a trace: of one that is accepted with the number of entries, of another with that of the bad one.
pub fn put_finding(out: &mut Writer, refusal: Option<Refusal>, number: u64)
    ensures wrote { Writes out.old (finding (answer_in refusal) number) out.new }
    ensures upper_bound { out.new.at ≤ out.old.at + longest_finding }
{
    let Some(refusal) = refusal else {
        put_accepted(out, number);
        return;
    };
    match refusal {
        Refusal::StrayEntry => put_bad(
            out,
            number,
            b" is not the state after a step from the line before\n",
        ),
        _ => put_bad(out, number, b" is malformed, cut short or missing\n"),
    }
}

// Writes the line of a verdict: the answer, the entry that it names, and the entry that would have been right if there is
// one.
pub fn put_verdict(out: &mut Writer, refusal: Option<Refusal>, line: u64, right: &[u8])
    ensures wrote { Writes out.old (verdict_line (answer_in refusal) line right.now) out.new }
    ensures upper_bound { out.new.at ≤ out.old.at + (25 + length right.now) }
{
    out.put_decimal(answer_in(refusal) as u64);
    out.put_spaced_decimal(line);
    if right.len() != 0 {
        out.put_byte(b' ');
        out.put_text(right);
    } else {
        out.put_byte(b'\n');
    }
}
