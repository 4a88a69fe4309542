// Prints what can be saved of a torn paper tape: every good data record, and a fresh end record.
//
// run rescue [--] [TAPE]
//
// The tape is a file of fewer than 1,048,576 characters, or standard input if it is `-` or none is named. A data record is
// kept if it is well formed, has the right sum and ends at FFFF or below. A sentence on standard error says how many were
// kept and dropped, and after how many characters the first that was dropped begins, with the tape's name before it.
//
// A tape of which nothing was dropped may still not be whole: a record may be missing altogether, or have lost its mark, so
// that it stands between records as something else. So the old tape is read too, and if a reader refuses it the sentence
// says so, and a second one what the reader found, and where.
//
// Exit status: 0 nothing was dropped, and the old tape is good; 21 something was: the new tape is not the whole tape; 5 or 8
// nothing was, but the old tape is refused, with 8 where it has no end record or one with another number: a part may be
// missing; the new tape is written. 8 more than 65,535 records could be kept, 10 the tape is too long, or what could be kept;
// nothing is written then; 64 wrong usage, 66 the tape cannot be opened, 74 reading or writing failed.
//
// What is saved and the sentences are promised by the crates tape_rescuing and tape_loading, and the status by the functions below.
#![tactic(auto)]

ghost use Rattle.std.specs.Prelude.{◌≡◌, take};
ghost use Rattle.statuses.specs.Statuses.{first_of};
ghost use Rattle.console.specs.Failing.{FailureStays};
ghost use Rattle.program_rescue.specs.Status.{status_of};

use console::{Console, Done, hand_over, name_from, refuse};
use console_tapes::{read_tape_input, say_verdict};
use laws::answers::Refusal;
use statuses::{first_of, rescue_status};
use tape_loading::{Format, Verdict, judge_tape, number_and_reach};
use tape_paper::tape_buffer;
use tape_rescuing::{LONGEST_SENTENCE, Rescued, Tally, numbers_of, put_sentence, rescue};
use text_writing::Writer;

// Says what was saved, and why a reader refuses the old tape if nothing else has told that it is not whole.
fn explain(console: &mut Console, index: usize, rescued: Result<Rescued, Refusal>, verdict: Verdict)
    ensures { FailureStays console.old.failed console.new.failed }
{
    let mut text = [0u8; LONGEST_SENTENCE];
    let mut out = Writer::new(&mut text);
    put_sentence(&mut out, rescued, verdict.err().map(|fault| fault.reason));
    let size = out.place();
    console.say_of(index, &text[..size]);
    match (rescued, verdict) {
        (
            Ok(
                Rescued {
                    tally: Tally { dropped: 0, .. },
                    ..
                },
            ),
            Err(_),
        ) => {
            say_verdict(console, index, Format::Tape, verdict);
        }
        _ => {}
    }
}

// Saves what can be saved of a tape into `text`, and prints it.
fn rescue_tape(console: &mut Console, index: usize, tape: &[u8], text: &mut [u8]) -> u8
    ensures { result ≡ first_of console.new.failed (status_of tape.now text.old) }
{
    let rescued = rescue(tape, text);
    let (answer, Rescued { size, tally }) = numbers_of(rescued);
    console.write_output(&text[..size]);
    let verdict = judge_tape(tape);
    let (read, _) = number_and_reach(verdict);
    explain(console, index, rescued, verdict);
    first_of(console.failed, rescue_status(answer, tally.dropped, read))
}

// Saves the tape that an argument names. The buffers are lent, so that the promise can name what was read.
fn rescue_input(console: &mut Console, index: usize, tape: &mut [u8], text: &mut [u8]) -> Done
    ensures { result.status ≡ first_of console.new.failed (status_of (take result.size tape.new) text.old) }
{
    let size = read_tape_input(console, index, tape);
    let status = if console.failed != 0 {
        console.failed
    } else {
        rescue_tape(console, index, &tape[..size], text)
    };
    Done { size, status }
}

fn rescue_argument(rt: HostRuntime, index: usize) -> u8 {
    let mut tape = tape_buffer();
    let mut text = tape_buffer();
    let mut console = Console::new(rt);
    rescue_input(&mut console, index, &mut tape, &mut text).status
}

fn main(rt: HostRuntime) {
    hand_over(match name_from(rt, 1) {
        Some(index) => rescue_argument(rt, index),
        None => refuse(
            rt,
            b"rescue: name one tape, or none for standard input; ./run rescue --help\n",
        ),
    });
}
