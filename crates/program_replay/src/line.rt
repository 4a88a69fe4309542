// One text line of the list: its fields, and the step that it describes.
ghost use Rattle.std.specs.Prelude.{◌≡◌};
ghost use Rattle.text_reading.specs.Found.{place_found};
ghost use Rattle.program_replay.specs.Inner.Lines.{Reads};
ghost use Rattle.program_replay.specs.Verdicts.{end_at, well_formed, line_at, line_verdict};

use crate::compare::{Verdict, judge};
use memory::{Address, Memory, get_byte};
use registers::Status;
use replay_list::{State, load_bytes, read_bar, read_state};
use text_reading::read_mark;

// What a line says, but for its bytes of memory.
#[derive(Clone, Copy)]
struct Line {
    before: State,
    after: State,
}

// The end of a line; one space may stand before it, if the last list is empty.
fn read_end(text: &[u8], at: usize) -> Option<usize>
    ensures { result ≡ place_found (end_at text.now at) }
{
    match read_mark(text, at, b'\n') {
        Some(end) => Some(end),
        None => read_mark(text, read_mark(text, at, b' ')?, b'\n'),
    }
}

// Whether a line names the opcode that its memory has, three levels, and a status that PHP can push: a wrong digit there changes
// no step.
#[tactic(auto, unfolding(crate::specs::Verdicts::well_formed))]
fn is_well_formed(before: State, memory: &Memory) -> bool
    ensures { result ≡ well_formed before memory.now }
{
    before.number == get_byte(memory, Address(before.counter))
        && before.levels <= 7
        && Status::pulled(before.status).pushed() == before.status
}

// Reads a line. Both memories are scratch: the first gets the bytes before the step, the second those after it.
fn read_line(text: &[u8], at: usize, memory: &mut Memory, expected: &mut Memory) -> Option<Line>
    ensures { Reads (line_at text.now at) result memory.new expected.new }
{
    memory.fill(0);
    expected.fill(0);
    let before = read_state(text, at)?;
    let list = read_bar(text, before.next)?;
    load_bytes(text, list, expected);
    let loaded = load_bytes(text, list, memory);
    let after = read_state(text, read_mark(text, read_bar(text, loaded)?, b' ')?)?;
    let stored = load_bytes(text, read_bar(text, after.next)?, expected);
    read_end(text, stored)?;
    Some(Line { before, after })
}

// The verdict on a line, by way of two scratch memories.
#[tactic(auto, unfolding(crate::specs::Verdicts::line_verdict, crate::specs::Verdicts::verdict_on))]
pub(crate) fn replay_line(
    text: &[u8],
    at: usize,
    memory: &mut Memory,
    expected: &mut Memory,
) -> Verdict
    ensures { result ≡ line_verdict text.now at }
{
    match read_line(text, at, memory, expected) {
        Some(line) if is_well_formed(line.before, memory) => {
            judge(line.before, line.after, memory, expected)
        }
        _ => Verdict::Malformed,
    }
}
