// Makes the steps of a list again, and says how many differ.
//
// run replay [--] [LIST]
//
// Every line of the list is one step, in the form of the crate replay_list. The list is a file of fewer than 2,097,152 bytes, or
// standard input if it is `-` or none is named; after `--` its name may begin with `-`. Each line that differs is named.
//
// Exit status: 0 there are lines and none differs; 1 one differs, or there is none, or the list is too long; 64 wrong usage,
// 66 the list cannot be opened, 74 reading or writing failed.
#![tactic(auto)]

ghost use Rattle.std.specs.Prelude.{◌≤◌, ◌≡◌, length, take};
ghost use Rattle.statuses.specs.Statuses.{check_status, first_of};
ghost use Rattle.console.specs.Failing.{FailureStays};
ghost use Rattle.program_replay.specs.Verdicts.{tally_of, replay_status};

use compare::Verdict;
use console::{Console, Done, hand_over, name_from, refuse};
use line::replay_line;
use manual::FULL_MEMORY;
use replay_list::next_line;
use statuses::{check_status, first_of};
use text_writing::Writer;

mod compare; // compare.rt: one step against what a line says of it
mod line; // line.rt: one line

// How many bytes of a list are read: one that has as many is too long.
const LIST_ROOM: usize = 2097152;

// How many lines there were, and how many of them differ.
#[derive(Drop)]
struct Tally {
    lines: u64,
    differ: u64,
}

// The word for a verdict, with the end of the line; all are of one length.
fn word_of(verdict: Verdict) -> &'static [u8]
    ensures { length result.now ≡ 12 }
{
    match verdict {
        Verdict::Same => b"same       \n",
        Verdict::Malformed => b"malformed  \n",
        Verdict::Answer => b"answer     \n",
        Verdict::Counter => b"counter    \n",
        Verdict::Accumulator => b"accumulator\n",
        Verdict::X => b"x          \n",
        Verdict::Y => b"y          \n",
        Verdict::Stack => b"stack      \n",
        Verdict::Status => b"status     \n",
        Verdict::Cycles => b"cycles     \n",
        Verdict::Levels => b"levels     \n",
        Verdict::Memory => b"memory     \n",
    }
}

// The most characters of what names a line that differs, `line `, twenty digits, `: ` and a word; and of the last line, twice twenty
// digits and the words.
const LONGEST_DIFFERENCE: usize = 39;

const LONGEST_TALLY: usize = 65;

// Names a line that differs.
fn tell(console: &mut Console, line: u64, verdict: Verdict)
    ensures { FailureStays console.old.failed console.new.failed }
{
    let mut text = [0u8; LONGEST_DIFFERENCE];
    let mut out = Writer::new(&mut text);
    out.put_text(b"line ");
    out.put_decimal(line);
    out.put_text(b": ");
    out.put_text(word_of(verdict));
    let size = out.place();
    console.write_output(&text[..size]);
}

fn replay(console: &mut Console, text: &[u8]) -> Tally
    ensures value { result ≡ tally_of text.now }
    ensures failure_stays { FailureStays console.old.failed console.new.failed }
{
    let mut memory = [0; FULL_MEMORY];
    let mut expected = [0; FULL_MEMORY];
    let mut at = 0;
    let mut lines = 0;
    let mut differ = 0;
    // No `for`: the next place is where the line ends.
    while at < text.len() {
        lines += 1;
        let verdict = replay_line(text, at, &mut memory, &mut expected);
        if verdict != Verdict::Same {
            tell(console, lines, verdict);
            differ += 1;
        }
        at = next_line(text, at);
    }
    Tally { lines, differ }
}

// The last line, and the status.
fn conclude(console: &mut Console, tally: Tally) -> u8
    ensures value { result ≡ first_of console.new.failed (check_status tally.lines tally.differ) }
    ensures failure_stays { FailureStays console.old.failed console.new.failed }
{
    let mut text = [0u8; LONGEST_TALLY];
    let mut out = Writer::new(&mut text);
    out.put_decimal(tally.lines);
    out.put_text(b" steps replayed, ");
    out.put_decimal(tally.differ);
    out.put_text(b" differ\n");
    let size = out.place();
    console.write_output(&text[..size]);
    first_of(console.failed, check_status(tally.lines, tally.differ))
}

// Room for the list. The ensures gives only the length, which lending the array as a slice needs.
fn list_buffer() -> [u8; 2097152]
    ensures { 2097152 ≡ length result }
{
    [0; LIST_ROOM]
}

// Makes the steps of a list again, and answers the status. One that fills its buffer is too long.
fn replay_list(console: &mut Console, index: usize, text: &[u8]) -> u8
    ensures value { result ≡ first_of console.new.failed (replay_status text.now) }
    ensures failure_stays { FailureStays console.old.failed console.new.failed }
{
    if text.len() == LIST_ROOM {
        console.say_of(index, b"refused: the list is too long\n");
        return first_of(console.failed, 1);
    }
    let tally = replay(console, text);
    conclude(console, tally)
}

// The same of the list that an argument names, which is read into `input`.
fn replay_argument(console: &mut Console, index: usize, input: &mut [u8]) -> Done
    ensures status_value { result.status ≡ first_of console.new.failed (replay_status (take result.size input.new)) }
    ensures failure_stays { FailureStays console.old.failed console.new.failed }
{
    let size = console.read_input(index, input);
    if console.failed != 0 {
        return Done {
            size,
            status: console.failed,
        };
    }
    let status = replay_list(console, index, &input[..size]);
    Done { size, status }
}

fn replay_by_arguments(rt: HostRuntime) -> u8 {
    let Some(name) = name_from(rt, 1) else {
        return refuse(
            rt,
            b"replay: the only argument is a list; ./run replay --help\n",
        );
    };
    let mut input = list_buffer();
    let mut console = Console::new(rt);
    let done = replay_argument(&mut console, name, &mut input);
    done.status
}

fn main(rt: HostRuntime) {
    hand_over(replay_by_arguments(rt));
}
