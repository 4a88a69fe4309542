// Lays a paper tape or Intel HEX onto an image, and keeps the memory after it if all of it is good.
//
// run load [--onto IMAGE] [--] TAPE AFTER
//
// TAPE is a file of fewer than 1,048,576 characters, or standard input if it is `-`. It is Intel HEX if its first record
// begins with `:`, and otherwise it is read as a tape. It is laid onto IMAGE, a file of 65,536 bytes, or onto zeros if none
// is named. AFTER is another file. The memory is written there, whole and at once, if all of TAPE is good; otherwise a file
// of that name is left as it was. A sentence on standard error says what was found, with the tape's name before it; of a bad
// one, after how many good records and how many characters the first bad record begins.
//
// Exit status: 0 all is good, and AFTER is written; 1 the image is not 65,536 bytes long; 5 a record is malformed or cut short,
// in HEX without data or of another type than 00 and 01, or a stray character stands there; 6 it has a wrong sum; 7 it goes
// past FFFF; 8 there is no end record, or it has a wrong number, or HEX has more than 65,535 data records; 10 the tape is too
// long for this program; 64 wrong usage, also where AFTER is TAPE or IMAGE by another name; 66 an input cannot be opened, 74
// reading or writing failed.
//
// What is laid, the answer and the sentence are promised by the crate tape_loading; the status and what is kept by the functions
// below.
#![tactic(auto)]

ghost use Rattle.std.specs.Prelude.{◌≤◌, ◌≡◌, length, take, replicate};
ghost use Rattle.manual.specs.Stepping.{full_memory};
ghost use Rattle.statuses.specs.Statuses.{first_of};
ghost use Rattle.console.specs.Failing.{FailureStays};
ghost use Rattle.tape_loading.specs.Texts.{read_text};

use console::{Console, Done, argument_count, argument_is, hand_over, names_from, refuse};
use console_ending::say_refused;
use console_files::{can_replace, is_same_file, not_written, replace};
use console_tapes::{read_tape_input, say_verdict};
use laws::answers::{NOT_REFUSED, Refusal};
use manual::FULL_MEMORY;
use memory::image_buffer;
use tape_loading::{Fault, Verdict, format_of, read_text};
use tape_paper::tape_buffer;

// The arguments that name the files: TAPE, AFTER, and IMAGE if there is one.
#[derive(Clone, Copy)]
struct Names {
    tape: usize,
    after: usize,
    image: Option<usize>,
}

// One answer is about the image, and all others about the tape.
fn explain(console: &mut Console, names: Names, tape: &[u8], verdict: Verdict, image: &[u8])
    ensures { FailureStays console.old.failed console.new.failed }
{
    match (verdict, names.image) {
        (
            Err(
                Fault {
                    reason: Refusal::MemoryNotFull,
                    ..
                },
            ),
            Some(index),
        ) => {
            say_refused(console, index, image);
        }
        _ => say_verdict(console, names.tape, format_of(tape), verdict),
    }
}

// Keeps a memory. `tape` was laid onto `before`: only if all of it is good, and only what the definition says.
fn keep(console: &mut Console, after: usize, tape: &[u8], before: &[u8], memory: &[u8]) -> u8
    requires memory_value { ((read_text tape.now before.now).answer ≡ 0) × (memory.now ≡ (read_text tape.now before.now).memory) }
    requires failed_value { console.old.failed ≡ 0 }
    ensures value { result ≡ first_of console.new.failed 0 }
    ensures failure_stays { FailureStays console.old.failed console.new.failed }
{
    replace(console, after, NOT_REFUSED, memory)
}

// Lays a tape onto an image, of which `before` is a copy, and keeps the memory only if the whole tape is good.
fn load_onto(
    console: &mut Console,
    names: Names,
    tape: &[u8],
    before: &[u8],
    image: &mut [u8],
) -> u8
    requires { image.old ≡ before.now }
    ensures { result ≡ first_of console.new.failed (read_text tape.now before.now).answer }
{
    let verdict = read_text(tape, image);
    explain(console, names, tape, verdict, before);
    match verdict {
        Err(fault) => not_written(console, names.after, fault.reason.into()),
        Ok(_) if console.failed != 0 => not_written(console, names.after, NOT_REFUSED),
        Ok(_) => keep(console, names.after, tape, before, image),
    }
}

// Loads a tape onto the image that an argument names, which is read into both buffers.
fn load_image(
    console: &mut Console,
    names: Names,
    index: usize,
    tape: &[u8],
    input: &mut [u8],
    image: &mut [u8],
) -> Done
    requires { length input.old ≤ length image.old }
    ensures { result.status ≡ first_of console.new.failed (read_text tape.now (take result.size input.new)).answer }
{
    let size = console.read_two(index, input, image);
    let status = if console.failed != 0 {
        console.failed
    } else {
        load_onto(console, names, tape, &input[..size], &mut image[..size])
    };
    Done { size, status }
}

// Loads a tape onto zeros.
fn load_zeros(console: &mut Console, names: Names, tape: &[u8]) -> u8
    ensures { result ≡ first_of console.new.failed (read_text tape.now (replicate full_memory 0)).answer }
{
    let zeros = [0u8; FULL_MEMORY];
    let mut image = zeros;
    load_onto(console, names, tape, &zeros, &mut image)
}

// Loads a tape that was read.
fn load_tape(console: &mut Console, names: Names, tape: &[u8]) -> u8 {
    let Some(index) = names.image else {
        return load_zeros(console, names, tape);
    };
    let mut input = image_buffer();
    let mut image = image_buffer();
    load_image(console, names, index, tape, &mut input, &mut image).status
}

fn load(rt: HostRuntime, names: Names) -> u8 {
    let is_after = |index| is_same_file(rt, names.after, index);
    if is_after(names.tape) || names.image.is_some_and(is_after) {
        return refuse(
            rt,
            b"load: AFTER is TAPE or IMAGE, which would be lost; name another file\n",
        );
    }
    let mut console = Console::new(rt);
    can_replace(&mut console, names.after);
    if console.failed != 0 {
        return console.failed;
    }
    let mut tape = tape_buffer();
    let size = read_tape_input(&mut console, names.tape, &mut tape);
    if console.failed != 0 {
        return console.failed;
    }
    load_tape(&mut console, names, &tape[..size])
}

fn load_by_arguments(rt: HostRuntime) -> u8 {
    let usage =
        b"load: give TAPE AFTER, and before them --onto IMAGE or nothing; ./run load --help\n";
    let (image, from) = if argument_is(rt, 1, b"--onto") {
        (Some(2), 3)
    } else {
        (None, 1)
    };
    let Some(tape) = names_from(rt, from) else {
        return refuse(rt, usage);
    };
    let after = tape + 1;
    if argument_count(rt) != after + 1 {
        return refuse(rt, usage);
    }
    if argument_is(rt, after, b"-") || argument_is(rt, after, b"") {
        return refuse(rt, b"load: AFTER is the name of a file\n");
    }
    load(rt, Names { tape, after, image })
}

fn main(rt: HostRuntime) {
    hand_over(load_by_arguments(rt));
}
