// A text of records read onto a lent memory.
#![tactic(auto)]

ghost use Rattle.std.specs.Prelude.{◌≤◌, ◌≡◌};
ghost use Rattle.tape_records.specs.Contents.{laid, outcome, read_onto};
ghost use Rattle.tape_records.specs.Inner.Items.{told, told_in};
ghost use Rattle.tape_paper.specs.Tapes.{tape_of, read_tape};
ghost use Rattle.tape_intel.specs.IntelHex.{read_hex};
ghost use Rattle.tape_loading.specs.Inner.Formats.{item_of, head_size, contents_of};
ghost use Rattle.tape_loading.specs.Inner.Following.{next_in, next_of};
ghost use Rattle.tape_loading.specs.Answers.{verdict_in, verdict_of, with_memory, number_and_reach};
ghost use Rattle.tape_loading.specs.Texts.{format_of, read_text};

use laws::answers::{NOT_REFUSED, Refusal};
use manual::FULL_MEMORY;
use tape_records::{Head, Item, skip_separators, store_bytes};
use text_reading::rest;

mod sentence; // sentence.rt: what a reader found, in words

pub use sentence::{LONGEST_SENTENCE, put_sentence};

// The formats: MOS paper tape, and Intel HEX. An enum and no trait, since which one a text has is known only when it is read.
#[derive(Clone, Copy, PartialEq, Eq)]
pub enum Format {
    Tape,
    Hex,
}

impl Format {
    // The record with which a text begins, after so many data records.
    fn read_item(self, text: &[u8], before: u64) -> Result<Item, Refusal>
        ensures { told_in result ≡ told (item_of self before text.now) }
    {
        match self {
            Format::Tape => tape_paper::read_item(text, before),
            Format::Hex => tape_intel::read_item(text, before),
        }
    }

    // How many bytes stand before the data of a record: its count and address, and in HEX its type.
    fn head_size(self) -> usize
        ensures { result ≡ head_size self }
    {
        match self {
            Format::Tape => 3,
            Format::Hex => 4,
        }
    }
}

// How far a text is good: how many good records stand before the first bad one, and where that begins, the text's length if there
// is none.
#[derive(Clone, Copy)]
pub struct Reach {
    pub good: u64,
    pub place: usize,
}

// Why a text is refused, and how far it is good.
#[derive(Clone, Copy)]
pub struct Fault {
    pub reason: Refusal,
    pub reach: Reach,
}

// What a text was found to be.
pub type Verdict = Result<Reach, Fault>;

// The numbers of a verdict, as C and the programs' statuses have them: the answer, and how far the text is good.
pub fn number_and_reach(verdict: Verdict) -> (u8, Reach)
    ensures { result ≡ number_and_reach verdict }
{
    match verdict {
        Ok(reach) => (NOT_REFUSED, reach),
        Err(fault) => (fault.reason.into(), fault.reach),
    }
}

// Why a text is refused, and how far it is good.
fn fault_at(reason: Refusal, good: u64, place: usize) -> Fault
    ensures { result ≡ record { reason = reason; reach = record { good = good; place = place } } }
{
    Fault {
        reason,
        reach: Reach { good, place },
    }
}

// What comes next in a good text: a data record, with the place of its data and that at which the text goes on, or the end.
#[derive(Clone, Copy)]
pub enum Next {
    Data {
        head: Head,
        digits: usize,
        after: usize,
    },
    End(Reach),
}

// What comes next after so many data records, the last of which ends at a place.
pub fn next_record(format: Format, text: &[u8], start: usize, before: u64) -> Result<Next, Fault>
    requires { before ≤ start }
    ensures { next_in result ≡ next_of format text.now start before }
{
    let size = text.len();
    let at = skip_separators(text, start);
    if size <= at {
        return Err(fault_at(Refusal::NoEnd, before, size));
    }
    match format.read_item(rest(text, at), before) {
        Err(reason) => Err(fault_at(reason, before, at)),
        Ok(Item::End) => {
            let good = before + 1;
            let end = skip_separators(text, at + 11);
            if end < size {
                return Err(fault_at(Refusal::MalformedRecord, good, end));
            }
            Ok(Next::End(Reach { good, place: size }))
        }
        Ok(Item::Data(head)) => Ok(Next::Data {
            head,
            digits: at + 1 + 2 * format.head_size(),
            after: at + head.size(),
        }),
    }
}

// Stores the data records up to the first bad one. A loop and no `for`: the next place is what the record before answers.
fn lay(format: Format, text: &[u8], memory: &mut [u8]) -> Verdict
    ensures { with_memory result memory.new
        ≡ outcome text.now (contents_of format text.now) (laid (contents_of format text.now).records memory.old) }
{
    let mut at: usize = 0;
    let mut before: u64 = 0;
    loop {
        match next_record(format, text, at, before)? {
            Next::End(reach) => return Ok(reach),
            Next::Data {
                head,
                digits,
                after,
            } => {
                store_bytes(rest(text, digits), head.count, memory, head.address);
                at = after;
                before += 1;
            }
        }
    }
}

// Reads a text onto a memory. It is laid twice, the first time onto no memory at all, so that a bad text stores nothing.
fn read(format: Format, text: &[u8], memory: &mut [u8]) -> Verdict
    ensures { with_memory result memory.new ≡ read_onto text.now (contents_of format text.now) memory.old }
{
    if memory.len() != FULL_MEMORY {
        return Err(fault_at(Refusal::MemoryNotFull, 0, 0));
    }
    lay(format, text, &mut [])?;
    lay(format, text, memory)
}

// What a reader would answer of a paper tape, which is read onto no memory.
pub fn judge_tape(text: &[u8]) -> Verdict
    ensures { verdict_in result ≡ verdict_of text.now (tape_of text.now) }
{
    lay(Format::Tape, text, &mut [])
}

// The format of a text, by the mark of its first record. What has neither mark is read as a tape, and refused.
pub fn format_of(text: &[u8]) -> Format
    ensures { result ≡ format_of text.now }
{
    let at = skip_separators(text, 0);
    if at < text.len() && text[at] == b':' {
        Format::Hex
    } else {
        Format::Tape
    }
}

// Reads a text of either format onto a memory.
pub fn read_text(text: &[u8], memory: &mut [u8]) -> Verdict
    ensures { with_memory result memory.new ≡ read_text text.now memory.old }
{
    read(format_of(text), text, memory)
}

// Reads Intel HEX onto a memory.
#[tactic(auto, unfolding(tape_intel::specs::IntelHex::read_hex, tape_intel::specs::IntelHex::hex_of))]
pub fn read_hex(text: &[u8], memory: &mut [u8]) -> Verdict
    ensures { with_memory result memory.new ≡ read_hex text.now memory.old }
{
    read(Format::Hex, text, memory)
}

// Reads a paper tape onto a memory.
#[tactic(auto, unfolding(tape_paper::specs::Tapes::read_tape, tape_paper::specs::Tapes::tape_of))]
pub fn read_tape(text: &[u8], memory: &mut [u8]) -> Verdict
    ensures { with_memory result memory.new ≡ read_tape text.now memory.old }
{
    read(Format::Tape, text, memory)
}
