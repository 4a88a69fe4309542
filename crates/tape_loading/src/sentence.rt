// What a reader found, in words.
ghost use Rattle.std.specs.Prelude.{◌+◌, ◌≤◌, Err};
ghost use Rattle.text_writing.specs.Written.{Writes};
ghost use Rattle.laws.specs.Answers.{answer_of};
ghost use Rattle.tape_loading.specs.Answers.{verdict_in};
ghost use Rattle.tape_loading.specs.Sentence.{malformed, unended, reason, good_sentence, good_records, bad_sentence, sentence, longest_sentence};

use crate::{Fault, Format, Reach, Verdict};
use laws::answers::Refusal;
use text_writing::Writer;

// The most characters that the sentence has.
pub const LONGEST_SENTENCE: usize = 160;

// A malformed record.
fn put_malformed(out: &mut Writer, format: Format)
    ensures { Writes out.old (malformed format) out.new }
{
    match format {
        Format::Tape => out.put_text(b"malformed, cut short or a stray character\n"),
        Format::Hex => out.put_text(
            b"malformed, cut short, a stray character or a type other than 00 and 01\n",
        ),
    }
}

// No end.
fn put_unended(out: &mut Writer, format: Format)
    ensures { Writes out.old (unended format) out.new }
{
    match format {
        Format::Tape => out.put_text(b"no end record, or a wrong number in it\n"),
        Format::Hex => out.put_text(b"no end record, or more than 65535 data records\n"),
    }
}

// Why a text is bad.
fn put_reason(out: &mut Writer, format: Format, why: Refusal)
    ensures { Writes out.old (reason format (answer_of why)) out.new }
{
    match why {
        Refusal::MalformedRecord => put_malformed(out, format),
        Refusal::WrongSum => out.put_text(b"a wrong sum\n"),
        Refusal::PastTheEnd => out.put_text(b"past FFFF\n"),
        _ => put_unended(out, format),
    }
}

fn put_good(out: &mut Writer, good: u64)
    ensures { Writes out.old (good_sentence good) out.new }
{
    out.put_text(b"done: all ");
    out.put_decimal(good);
    out.put_text(b" records are good, the end record counted\n");
}

fn put_good_records(out: &mut Writer, good: u64)
    ensures { Writes out.old (good_records good) out.new }
{
    if good == 1 {
        out.put_text(b" good record and ");
    } else {
        out.put_text(b" good records and ");
    }
}

fn put_bad(out: &mut Writer, format: Format, fault: Fault)
    ensures { Writes out.old (bad_sentence format (verdict_in (Err fault))) out.new }
{
    let Reach { good, place } = fault.reach;
    out.put_text(b"refused after ");
    out.put_decimal(good);
    put_good_records(out, good);
    out.put_decimal(place as u64);
    out.put_text(b" characters: ");
    put_reason(out, format, fault.reason);
}

// Writes the sentence about a text of a format.
pub fn put_sentence(out: &mut Writer, format: Format, verdict: Verdict)
    ensures wrote { Writes out.old (sentence format (verdict_in verdict)) out.new }
    ensures upper_bound { out.new.at ≤ out.old.at + longest_sentence }
{
    match verdict {
        Ok(reach) => put_good(out, reach.good),
        Err(fault) => match fault.reason {
            Refusal::MemoryNotFull => out.put_text(b"refused: the image is not 65536 bytes long\n"),
            _ => put_bad(out, format, fault),
        },
    }
}
