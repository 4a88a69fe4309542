// What the programs of tapes share: a text that is read, moved to the other format and printed; what is said of it, and its status.
#![tactic(auto)]

ghost use Rattle.text_writing.specs.Counts.{IsPrefixLen};
ghost use Rattle.console.specs.Failing.{FailureStays};
ghost use Rattle.std.specs.Prelude.{◌≤◌, ◌≡◌, take};
ghost use Rattle.statuses.specs.Statuses.{first_of};
ghost use Rattle.tape_moving.specs.Moving.{moved_from};

use console::{Console, Done, name_from, refuse};
use laws::answers::{NO_ROOM, NOT_REFUSED, Refusal};
use statuses::first_of;
use tape_loading::{Fault, Format, LONGEST_SENTENCE, Verdict, format_of, put_sentence};
use tape_moving::move_text;
use tape_paper::tape_buffer;
use text_writing::Writer;

// Reads it into a tape buffer, and answers its size. One that fills the buffer may be longer, and is refused.
pub fn read_tape_input(console: &mut Console, index: usize, tape: &mut [u8]) -> usize
    ensures prefix_len { IsPrefixLen result tape.new }
    ensures failure_stays { FailureStays console.old.failed console.new.failed }
{
    let size = console.read_input(index, tape);
    if size < tape.len() {
        return size;
    }
    console.note_failure(NO_ROOM);
    console.say_of(index, b"refused: it has more than 1048575 characters\n");
    0
}

// Says what a reader found of a text that it took for one of a format.
pub fn say_verdict(console: &mut Console, index: usize, format: Format, verdict: Verdict)
    ensures { FailureStays console.old.failed console.new.failed }
{
    let mut text = [0u8; LONGEST_SENTENCE];
    let mut out = Writer::new(&mut text);
    put_sentence(&mut out, format, verdict);
    let size = out.place();
    console.say_of(index, &text[..size]);
}

// Says of a text that is refused from its start on whether it is one for the other program.
fn point_out(console: &mut Console, index: usize, from: Format, text: &[u8])
    ensures { FailureStays console.old.failed console.new.failed }
{
    match (from, format_of(text)) {
        (Format::Tape, Format::Hex) => {
            console.say_of(index, b"it is Intel HEX: ./run tape makes a tape of it\n");
        }
        (Format::Hex, Format::Tape) => {
            console.say_of(
                index,
                b"it is no Intel HEX: ./run hex makes that of a tape\n",
            );
        }
        _ => {}
    }
}

// Says why a text is not moved.
fn explain(console: &mut Console, index: usize, from: Format, fault: Fault, text: &[u8])
    ensures { FailureStays console.old.failed console.new.failed }
{
    if fault.reason == Refusal::NoRoom {
        return console.say_of(
            index,
            b"refused: the new text has more than 1048576 characters\n",
        );
    }
    say_verdict(console, index, from, Err(fault));
    if fault.reason == Refusal::MalformedRecord && fault.reach.good == 0 {
        point_out(console, index, from, text);
    }
}

// Prints the moved text, which is put into `out`. Nothing is said to be done if it could not be written.
fn print_moved(console: &mut Console, index: usize, from: Format, text: &[u8], out: &mut [u8]) -> u8
    ensures { result ≡ first_of console.new.failed (moved_from from text.now out.old).answer }
{
    let answer = match move_text(from, text, out) {
        Ok(moved) => {
            console.write_output(&out[..moved.size]);
            if console.failed == 0 {
                say_verdict(console, index, from, Ok(moved.reach));
            }
            NOT_REFUSED
        }
        Err(fault) => {
            explain(console, index, from, fault, text);
            u8::from(fault.reason)
        }
    };
    first_of(console.failed, answer)
}

// Reads the text that an argument names, which has a format, and prints it in the other one. The buffers are lent, so that
// the promise can name what was read.
pub fn move_input(
    console: &mut Console,
    index: usize,
    from: Format,
    text: &mut [u8],
    out: &mut [u8],
) -> Done
    ensures { result.status ≡ first_of console.new.failed (moved_from from (take result.size text.new) out.old).answer }
{
    let size = read_tape_input(console, index, text);
    let status = if console.failed != 0 {
        console.failed
    } else {
        print_moved(console, index, from, &text[..size], out)
    };
    Done { size, status }
}

// Moves the text that an argument names, and answers the status.
pub fn move_argument(rt: HostRuntime, index: usize, from: Format) -> u8 {
    let mut text = tape_buffer();
    let mut out = tape_buffer();
    let mut console = Console::new(rt);
    move_input(&mut console, index, from, &mut text, &mut out).status
}

// Moves the text that the only argument names, or says what the program takes.
pub fn move_by_arguments(rt: HostRuntime, from: Format, usage: &[u8]) -> u8 {
    match name_from(rt, 1) {
        Some(index) => move_argument(rt, index, from),
        None => refuse(rt, usage),
    }
}
