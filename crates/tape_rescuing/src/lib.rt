// What can be saved of a torn tape.
#![tactic(auto)]

ghost use Rattle.std.specs.Prelude.{◌+◌, ◌*◌, ◌≤◌, ◌<◌, ◌≡◌, ◌++◌, IfOk, length, take};
ghost use Rattle.text_writing.specs.Written.{Writes};
ghost use Rattle.tape_records.specs.Records.{record_of};
ghost use Rattle.tape_records.specs.Grammar.{newline};
ghost use Rattle.tape_records.specs.Inner.Items.{told, told_in};
ghost use Rattle.tape_rescuing.specs.Rescuing.{worth, saved, rescued, numbers_of, with_text};
ghost use Rattle.tape_rescuing.specs.Inner.Passing.{Passed};

use laws::answers::{NOT_REFUSED, Refusal};
use tape_paper::{judge, put_end};
use tape_records::{Item, read_record};
use text_reading::rest;
use text_writing::Writer;

mod sentence; // sentence.rt: what was saved, in words

pub use sentence::{LONGEST_SENTENCE, put_sentence};

// How many records were kept and dropped, and where the first dropped one began, the text's length if none is.
#[derive(Clone, Copy)]
pub struct Tally {
    pub kept: u64,
    pub dropped: u64,
    pub first: usize,
}

// The length of the text at the start of the buffer, and what was kept and dropped.
#[derive(Clone, Copy)]
pub struct Rescued {
    pub size: usize,
    pub tally: Tally,
}

// The numbers of a rescue, as C and the programs' statuses have them: the answer, and the counts, all 0 if it is refused.
pub fn numbers_of(rescued: Result<Rescued, Refusal>) -> (u8, Rescued)
    ensures { result ≡ numbers_of rescued }
{
    match rescued {
        Ok(rescued) => (NOT_REFUSED, rescued),
        Err(refusal) => (
            refusal.into(),
            Rescued {
                size: 0,
                tally: Tally {
                    kept: 0,
                    dropped: 0,
                    first: 0,
                },
            },
        ),
    }
}

// The record that begins here, whatever stands before it: an end record's number is not compared with a count.
fn read_worth(text: &[u8]) -> Result<Item, Refusal>
    ensures { told_in result ≡ told (worth (record_of 59 text.now)) }
{
    let Some(parts) = read_record(text, b';') else {
        return Err(Refusal::MalformedRecord);
    };
    judge(parts, parts.head.address as u64)
}

// The record with which a text begins, and CR LF.
fn put_kept(out: &mut Writer, text: &[u8], size: usize)
    requires { size ≤ length text.now }
    ensures { Writes out.old (take size text.now ++ newline) out.new }
{
    out.put_text(&text[..size]);
    out.put_text(b"\r\n");
}

// Writes what is kept. Of more than 65,535 records the end record is left out: there is none that fits.
fn put_saved(out: &mut Writer, text: &[u8]) -> Tally
    ensures { Passed (saved 0 text.now) out.old out.new result }
{
    let mut kept: u64 = 0;
    let mut dropped: u64 = 0;
    let mut first: Option<usize> = None;
    // By index: the place itself is told, and the rest of the text begins there.
    for at in 0..text.len() {
        if text[at] != b';' {
            continue;
        }
        let record = rest(text, at);
        match read_worth(record) {
            Ok(Item::Data(head)) => {
                put_kept(out, record, head.size());
                kept += 1;
            }
            Ok(Item::End) => {}
            Err(_) => {
                first = first.or(Some(at));
                dropped += 1;
            }
        }
    }
    let first = first.unwrap_or(text.len());
    if kept <= 65535 {
        put_end(out, kept as u16);
    }
    Tally {
        kept,
        dropped,
        first,
    }
}

// Saves what is good of a torn tape. The text is written twice, the first time to where nothing is kept.
pub fn rescue(text: &[u8], out: &mut [u8]) -> Result<Rescued, Refusal>
    ensures out_after { with_text result out.new ≡ rescued text.now out.old }
    ensures size_in_bounds { IfOk result (λ rescued. rescued.size ≤ length out.old) }
{
    let mut nowhere = [0u8; 0];
    let mut measure = Writer::new(&mut nowhere);
    let measured = put_saved(&mut measure, text);
    if 65535 < measured.kept {
        return Err(Refusal::NoEnd);
    }
    if out.len() < measure.place() {
        return Err(Refusal::NoRoom);
    }
    let mut written = Writer::new(out);
    let tally = put_saved(&mut written, text);
    let size = written.place();
    Ok(Rescued { size, tally })
}
