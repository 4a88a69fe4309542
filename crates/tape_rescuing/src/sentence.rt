// What a rescue saved, in words.
ghost use Rattle.std.specs.Prelude.{◌+◌, ◌≤◌};
ghost use Rattle.text_writing.specs.Written.{Writes};
ghost use Rattle.tape_rescuing.specs.Rescuing.{report_of};
ghost use Rattle.tape_rescuing.specs.Sentence.{read_answer, kept_records, kept_sentence, lost_sentence, sentence, longest_sentence};

use crate::{Rescued, Tally};
use laws::answers::Refusal;
use text_writing::Writer;

// The most characters that the sentence has.
pub const LONGEST_SENTENCE: usize = 128;

fn put_kept_records(out: &mut Writer, kept: u64)
    ensures { Writes out.old (kept_records kept) out.new }
{
    out.put_decimal(kept);
    if kept == 1 {
        out.put_text(b" record is kept");
    } else {
        out.put_text(b" records are kept");
    }
}

fn put_none_dropped(out: &mut Writer, kept: u64, read: Option<Refusal>)
    ensures wrote { Writes out.old (kept_sentence kept (read_answer read)) out.new }
    ensures upper_bound { out.new.at ≤ out.old.at + longest_sentence }
{
    match read {
        None => {
            out.put_text(b"nothing was dropped: ");
            put_kept_records(out, kept);
            out.put_text(b"\n");
        }
        Some(_) => {
            put_kept_records(out, kept);
            out.put_text(b"; something between records may have been one, or one is missing\n");
        }
    }
}

fn put_lost(out: &mut Writer, tally: Tally)
    ensures wrote { Writes out.old (lost_sentence tally.kept tally.dropped tally.first) out.new }
    ensures upper_bound { out.new.at ≤ out.old.at + longest_sentence }
{
    out.put_text(b"torn: ");
    put_kept_records(out, tally.kept);
    out.put_text(b", ");
    out.put_decimal(tally.dropped);
    out.put_text(b" dropped, the first after ");
    out.put_decimal(tally.first as u64);
    out.put_text(b" characters\n");
}

// Writes the sentence. `read` is why a reader refuses the old tape, if it does.
pub fn put_sentence(out: &mut Writer, rescued: Result<Rescued, Refusal>, read: Option<Refusal>)
    ensures wrote { Writes out.old (sentence (report_of rescued) (read_answer read)) out.new }
    ensures upper_bound { out.new.at ≤ out.old.at + longest_sentence }
{
    match rescued {
        Ok(rescued) => {
            if rescued.tally.dropped == 0 {
                put_none_dropped(out, rescued.tally.kept, read);
            } else {
                put_lost(out, rescued.tally);
            }
        }
        Err(refusal) => match refusal {
            Refusal::NoEnd => out.put_text(b"refused: more than 65535 records could be kept\n"),
            Refusal::NoRoom => {
                out.put_text(b"refused: what could be kept is longer than the buffer\n")
            }
            // a rescue is refused for no other reason
            _ => put_none_dropped(out, 0, read),
        },
    }
}
