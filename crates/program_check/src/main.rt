// Checks logs of another emulator against an image, and says which line is the first that does not follow.
//
// run check [--] IMAGE LOG...
//
// IMAGE is a file of 65,536 bytes. A log is a file of any length, or standard input where it is `-`; after `--` a name may
// begin with `-`. Its lines hold the last seven fields of report's line: cycles, counter, A, X, Y, S, status. The first may be
// any state; every later one has to be the state after one step from the line before, with idle lines, on the memory that the
// steps before it leave. What is found goes to standard output, a line for each log: the answer and the line that it names,
// counted from 1; of a line that does not follow, the line that would have been right after it, where a step can be made. A
// sentence on standard error says the same in words, with the log's name before it. A log of one line is accepted: it shows
// nothing about a step.
//
// Exit status: 0 every line follows; 1 the image is not 65,536 bytes long; 11 a line is malformed or cut short, or there is
// none; 12 a line does not follow from the one before; 64 wrong usage, 66 an input cannot be opened, 74 reading or writing
// failed. Of several logs the first status that is not 0; every one that can be read is checked.
//
// What is accepted is promised by the crate trace_checking, also part by part, and what the line and the sentence say by trace_text.
#![tactic(auto)]

ghost use Rattle.std.specs.Prelude.{◌≡◌, ◌≤◌, length, take};
ghost use Rattle.statuses.specs.Statuses.{log_status, first_of};
ghost use Rattle.console.specs.Failing.{FailureStays};
ghost use Rattle.text_writing.specs.Delivered.{answer_in};
ghost use Rattle.program_check.specs.Concluded.{Concludes, Notes};
ghost use Rattle.trace_line.specs.Lines.{longest_line};
ghost use Rattle.manual.specs.Stepping.{full_memory};

use console::{Console, Done, argument_count, argument_is, hand_over, names_from, refuse};
use console_ending::say_refused;
use laws::answers::{MEMORY_NOT_FULL, Refusal};
use log::{Found, check_log};
use manual::{Ended, FULL_MEMORY, Machine};
use memory::image_buffer;
use sentences::{LONGEST_SENTENCE, put_sentence};
use statuses::{Goal, first_of, log_status};
use text_writing::{Writer, answer_in};
use trace_line::LONGEST_LINE;
use trace_steps::put_steps;
use trace_text::{LONGEST_FINDING, LONGEST_VERDICT, View, put_finding, put_verdict};

mod log; // log.rt: a log, read and checked part by part

fn write_verdict(console: &mut Console, refusal: Option<Refusal>, line: u64, right: &[u8])
    requires { length right.now ≤ longest_line }
    ensures { FailureStays console.old.failed console.new.failed }
{
    let mut text = [0u8; LONGEST_VERDICT];
    let mut out = Writer::new(&mut text);
    put_verdict(&mut out, refusal, line, right);
    let size = out.place();
    console.write_output(&text[..size]);
}

fn say_finding(console: &mut Console, index: usize, refusal: Option<Refusal>, number: u64)
    ensures { FailureStays console.old.failed console.new.failed }
{
    let mut text = [0u8; LONGEST_FINDING];
    let mut out = Writer::new(&mut text);
    put_finding(&mut out, refusal, number);
    let size = out.place();
    console.say_of(index, &text[..size]);
}

// Why no step can be made from the last line, where none can be.
fn say_stuck(console: &mut Console, index: usize, ended: Ended, copy: &[u8])
    ensures { FailureStays console.old.failed console.new.failed }
{
    if ended.reason.is_made() {
        return;
    }
    let mut text = [0u8; LONGEST_SENTENCE];
    let mut out = Writer::new(&mut text);
    put_sentence(&mut out, Goal::Unnamed, ended, copy);
    let size = out.place();
    console.say_of(index, &text[..size]);
}

// The line that would have followed; where no step can be made, a sentence says why.
fn show_right(
    console: &mut Console,
    index: usize,
    line: u64,
    last: Option<Machine>,
    copy: &mut [u8],
)
    ensures { FailureStays console.old.failed console.new.failed }
{
    let mut right = [0u8; LONGEST_LINE];
    let mut out = Writer::new(&mut right);
    if let Some(machine) = last {
        let ended = put_steps(&mut out, View::States, machine, 1, copy);
        say_stuck(console, index, ended, copy);
    }
    let size = out.place();
    write_verdict(console, Some(Refusal::StrayEntry), line, &right[..size]);
}

// What is shown of a log that is not accepted.
fn show_bad(console: &mut Console, index: usize, refusal: Refusal, found: Found, copy: &mut [u8])
    ensures { FailureStays console.old.failed console.new.failed }
{
    let bad = found.lines.wrapping_add(1);
    say_finding(console, index, Some(refusal), bad);
    match refusal {
        Refusal::StrayEntry => show_right(console, index, bad, found.last, copy),
        _ => write_verdict(console, Some(refusal), bad, b""),
    }
}

// Why a log is not accepted, if it is not: one without an entry is malformed too. So what is said and the status agree.
fn refusal_of(found: Found) -> Option<Refusal>
    ensures { answer_in result ≡ log_status full_memory (answer_in found.refusal) found.lines }
{
    if found.lines == 0 && found.refusal.is_none() {
        return Some(Refusal::MalformedEntry);
    }
    found.refusal
}

// Shows what was found in a log.
fn show_found(console: &mut Console, index: usize, found: Found, copy: &mut [u8])
    ensures { FailureStays console.old.failed console.new.failed }
{
    match refusal_of(found) {
        None => {
            say_finding(console, index, None, found.lines);
            write_verdict(console, None, 0, b"");
        }
        Some(refusal) => show_bad(console, index, refusal, found, copy),
    }
}

// Shows what was found in a log, and answers its status.
fn conclude(console: &mut Console, index: usize, found: Found, copy: &mut [u8]) -> u8
    ensures value { result ≡ first_of console.new.failed (log_status (length copy.old) (answer_in found.refusal) found.lines) }
    ensures failure_stays { FailureStays console.old.failed console.new.failed }
{
    let status = log_status(copy.len(), answer_in(found.refusal), found.lines);
    show_found(console, index, found, copy);
    first_of(console.failed, status)
}

// Says that an image is none, and answers the status.
fn refuse_image(console: &mut Console, index: usize, image: &[u8]) -> u8
    ensures value { result ≡ first_of console.new.failed 1 }
    ensures failure_stays { FailureStays console.old.failed console.new.failed }
{
    say_refused(console, index, image);
    write_verdict(console, Some(Refusal::MemoryNotFull), 0, b"");
    first_of(console.failed, MEMORY_NOT_FULL)
}

// Checks a log on a copy of the image, and answers the status: there is a text, the one that was read, of which this is it.
// Where the image could not be read nothing is checked.
fn check_on(console: &mut Console, image: usize, log: usize, copy: &mut [u8]) -> u8
    ensures concludes { Concludes copy.old console.new.failed result }
    ensures failure_stays { FailureStays console.old.failed console.new.failed }
{
    if console.failed != 0 {
        return console.failed;
    }
    if copy.len() != FULL_MEMORY {
        return refuse_image(console, image, copy);
    }
    let found = check_log(console, log, copy);
    if console.failed != 0 {
        return console.failed;
    }
    conclude(console, log, found, copy)
}

// Checks a log on the image, which is read again for each, and answers the status that stays after one that was noted before: of
// several logs the first that is not 0. The image is left in `input` as it was read, and the log is checked on a copy.
fn check_argument(
    console: &mut Console,
    image: usize,
    log: usize,
    input: &mut [u8],
    copy: &mut [u8],
    before: u8,
) -> Done
    requires { length input.old ≤ length copy.old }
    ensures notes { Notes before (take result.size input.new) console.new.failed result.status }
    ensures failure_stays { FailureStays console.old.failed console.new.failed }
{
    let size = console.read_two(image, input, copy);
    let own = check_on(console, image, log, &mut copy[..size]);
    Done {
        size,
        status: first_of(before, own),
    }
}

// Checks the logs from an index on, each with a cell of its own; the image stands before them.
fn check_all(rt: HostRuntime, first: usize, count: usize) -> u8
    requires { 1 ≤ first }
{
    let mut input = image_buffer();
    let mut copy = image_buffer();
    let mut status: u8 = 0;
    for index in first..count {
        let mut console = Console::new(rt);
        let done = check_argument(
            &mut console,
            first - 1,
            index,
            &mut input,
            &mut copy,
            status,
        );
        status = done.status;
    }
    status
}

fn check_by_arguments(rt: HostRuntime) -> u8 {
    let usage = b"check: give an image and a log, or several logs; ./run check --help\n";
    let Some(image) = names_from(rt, 1) else {
        return refuse(rt, usage);
    };
    let count = argument_count(rt);
    if count < image + 2 {
        return refuse(rt, usage);
    }
    if argument_is(rt, image, b"-") {
        return refuse(rt, b"check: IMAGE is the name of a file\n");
    }
    check_all(rt, image + 1, count)
}

fn main(rt: HostRuntime) {
    hand_over(check_by_arguments(rt));
}
