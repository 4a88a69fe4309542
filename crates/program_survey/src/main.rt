// Prints a line about each paper tape: whether it is good, and what a rescue would keep of it.
//
// run survey [--] [TAPE...]
//
// A tape is a file of fewer than 1,048,576 characters, or standard input if it is `-` or none is named. Its line has
// seven decimal numbers. Three are the reader's: its answer, the good records before the first bad one, and the characters
// before that one. Four are a rescue's: its answer, the records kept, those dropped, and the characters before the first of
// these. If none is bad or dropped, the length of the tape stands there; of a rescue that is refused the last three are 0. A
// sentence on standard error says what the reader found, with the tape's name before it. No file is written.
//
// Exit status: 0 the tape is good; 5 a record is malformed or cut short, or a stray character stands there; 6 it has a wrong
// sum; 7 it goes past FFFF; 8 there is no end record, or it has a wrong number; 10 the tape is too long for this program, and
// has no line; 64 wrong usage, 66 a tape cannot be opened, 74 reading or writing failed. Of several tapes the first status
// that is not 0; every one that can be read is looked at.
//
// What the line and the sentence say is promised by line.rt and the crates tape_loading and tape_rescuing, and the status by the functions below.
#![tactic(auto)]

ghost use Rattle.std.specs.Prelude.{◌≡◌, ◌≤◌, take};
ghost use Rattle.statuses.specs.Statuses.{first_of};
ghost use Rattle.console.specs.Failing.{FailureStays};
ghost use Rattle.tape_paper.specs.Tapes.{tape_of};

use console::{Console, Done, argument_count, hand_over, names_from, refuse};
use console_tapes::{read_tape_input, say_verdict};
use laws::answers::Refusal;
use line::{LONGEST_LINE, put_line};
use statuses::first_of;
use tape_loading::{Format, Verdict, judge_tape, number_and_reach};
use tape_paper::tape_buffer;
use tape_rescuing::{Rescued, rescue};
use text_writing::Writer;

mod line; // line.rt: the line of a tape

fn print_line(console: &mut Console, verdict: Verdict, rescued: Result<Rescued, Refusal>)
    ensures { FailureStays console.old.failed console.new.failed }
{
    let mut text = [0u8; LONGEST_LINE];
    let mut out = Writer::new(&mut text);
    put_line(&mut out, verdict, rescued);
    let size = out.place();
    console.write_output(&text[..size]);
}

fn rescue_for_counts(tape: &[u8]) -> Result<Rescued, Refusal> {
    rescue(tape, &mut tape_buffer())
}

// Surveys a tape, and answers its status.
fn survey_tape(console: &mut Console, index: usize, tape: &[u8]) -> u8
    ensures { result ≡ first_of console.new.failed (tape_of tape.now).answer }
{
    let verdict = judge_tape(tape);
    print_line(console, verdict, rescue_for_counts(tape));
    say_verdict(console, index, Format::Tape, verdict);
    let (answer, _) = number_and_reach(verdict);
    first_of(console.failed, answer)
}

// Surveys the tape that an argument names. The buffer is lent, so that the promise can name what was read.
fn survey_argument(console: &mut Console, index: usize, tape: &mut [u8]) -> Done
    ensures { result.status ≡ first_of console.new.failed (tape_of (take result.size tape.new)).answer }
{
    let size = read_tape_input(console, index, tape);
    let status = if console.failed != 0 {
        console.failed
    } else {
        survey_tape(console, index, &tape[..size])
    };
    Done { size, status }
}

// Surveys one tape in a buffer of its own. Not put into `main`, where wrong usage would need the room of two tapes too.
#[inline(never)]
fn survey_one(rt: HostRuntime, index: usize) -> u8 {
    let mut console = Console::new(rt);
    survey_argument(&mut console, index, &mut tape_buffer()).status
}

// Surveys the tapes that are named, or else standard input, for which a missing argument stands.
fn survey_all(rt: HostRuntime, from: usize) -> u8
    requires { from ≤ 255 }
{
    (from..argument_count(rt).max(from + 1)).fold(
        0,
        |status, index| first_of(status, survey_one(rt, index)),
    )
}

fn main(rt: HostRuntime) {
    hand_over(match names_from(rt, 1) {
        Some(from) => survey_all(rt, from),
        None => refuse(
            rt,
            b"survey: name tapes, or none for standard input; ./run survey --help\n",
        ),
    });
}
