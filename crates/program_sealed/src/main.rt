// Runs an image as go does, with some of its bytes sealed: the run is halted before it would read one of them.
//
// run sealed STRETCHES STEPS STOP [--] IMAGE AFTER
//
// STRETCHES is one word that says what is sealed, as 0400-04FF,0600-06FF: of each stretch the first and the last address, four
// capital hexadecimal digits each. They stand in any order, and may overlap; FFFC and FFFD, where the run finds its start,
// cannot be sealed. STEPS, STOP, IMAGE and AFTER are those of go, but a halted run is no IMAGE here. The line of report goes to
// standard output, with 13 for its answer if the run was halted; what can be sworn of the sealed bytes goes to standard error,
// with the image's name before it. What the run leaves is written to AFTER, whole and at once, if it ended as it was meant to:
// the memory, and with `-` for STOP the line of the state after it, as go writes a halted run. There a sealed byte that was
// never stored to is 00, whatever it was: nothing that comes out depends on a sealed byte.
//
// Exit status: 0 no sealed byte was read, the run ended as it was meant to, and AFTER is written; 13 it was halted before it
// would have read one; otherwise that of go.
//
// What the word says, what is run, the line, the sentences, the status and what is kept are promised by the functions below, and
// by the crates guard_extract, image_run, statuses and image_halted.
#![tactic(auto)]

ghost use Rattle.std.specs.Prelude.{◌+◌, ◌≤◌, ◌≡◌, length, take};
ghost use Rattle.text_writing.specs.Counts.{IsPrefixLen};
ghost use Rattle.manual.specs.Stepping.{full_memory};
ghost use Rattle.statuses.specs.Statuses.{first_of};
ghost use Rattle.console.specs.Failing.{FailureStays};
ghost use Rattle.guard_maps.specs.Maps.{in_map};
ghost use Rattle.guard_extract.specs.Words.{sealed_status};
ghost use Rattle.program_sealed.specs.Runs.{longest_word, left_file, run_status, run_after};
ghost use Rattle.trace_line.specs.Lines.{longest_line};

use console::{
    Console, Done, Names, argument, hand_over, image_and_after, put_printed, refuse, steps_and_stop,
};
use console_ending::say_ending;
use console_files::{is_same_file, not_written, read_and_test, replace};
use guard::Guarded;
use guard_extract::stretches::{Misspelled, read_stretches, stretch_end};
use guard_extract::{
    LONGEST_OATH, LONGEST_SEALED_LINE, put_oath, put_sealed_line, run_sealed, sealed_status,
};
use guard_maps::{Map, empty_map};
use image_halted::put_after;
use manual::FULL_MEMORY;
use memory::image_buffer;
use statuses::{Goal, WRONG_USAGE, first_of};
use text_reading::rest;
use text_writing::Writer;

// No word that Linux hands to a program is longer.
const LONGEST_WORD: usize = 131072;

fn word_buffer() -> [u8; LONGEST_WORD]
    ensures { longest_word ≡ length result }
{
    [0; LONGEST_WORD]
}

// Where the run is meant to end, and how many steps it may make.
#[derive(Drop)]
struct Work {
    goal: Goal,
    steps: u64,
}

fn print_line(console: &mut Console, guarded: Guarded)
    ensures { FailureStays console.old.failed console.new.failed }
{
    let mut text = [0u8; LONGEST_SEALED_LINE];
    let mut out = Writer::new(&mut text);
    put_sealed_line(&mut out, guarded);
    let size = out.place();
    console.write_output(&text[..size]);
}

// Says how a run ended that was not halted.
fn say_end(console: &mut Console, index: usize, goal: Goal, guarded: Guarded, image: &[u8])
    ensures { FailureStays console.old.failed console.new.failed }
{
    if let Ok(ended) = guarded {
        say_ending(console, index, goal, ended, image);
    }
}

// Says how the run ended and what can be sworn, and answers the status.
fn swear(
    console: &mut Console,
    index: usize,
    goal: Goal,
    word: &[u8],
    guarded: Guarded,
    image: &[u8],
) -> u8
    requires { length word.now ≤ longest_word }
    ensures value { result ≡ sealed_status goal guarded }
    ensures failure_stays { FailureStays console.old.failed console.new.failed }
{
    say_end(console, index, goal, guarded, image);
    let mut text = [0u8; LONGEST_OATH + LONGEST_WORD];
    let mut out = Writer::new(&mut text);
    put_oath(&mut out, word, guarded);
    let size = out.place();
    console.say_of(index, &text[..size]);
    sealed_status(goal, guarded)
}

// Makes the file that a run leaves of the memory that stands at the start of a buffer, and answers its size.
fn put_left(file: &mut [u8], goal: Goal, guarded: Guarded) -> usize
    requires { full_memory + longest_line ≤ length file.old }
    ensures file_after { take result file.new ≡ left_file goal guarded (take full_memory file.old) }
    ensures prefix_len { IsPrefixLen result file.new }
{
    match guarded {
        Ok(ended) => put_after(file, goal, ended.machine),
        Err(_) => FULL_MEMORY,
    }
}

// Keeps a file that a run left. `input` is what was read: only if its status is 0, and only what the definition says.
fn keep(
    console: &mut Console,
    after: usize,
    work: Work,
    sealed: &Map,
    input: &[u8],
    status: u8,
    file: &[u8],
) -> u8
    requires status_value { (status ≡ 0)
        × (run_status (in_map sealed.now) work input.now ≡ 0)
        × (file.now ≡ run_after (in_map sealed.now) work input.now) }
    requires failed_value { console.old.failed ≡ 0 }
    ensures value { result ≡ first_of console.new.failed status }
    ensures failure_stays { FailureStays console.old.failed console.new.failed }
{
    replace(console, after, status, file)
}

// Runs what was read, in the copy of it that stands at the start of `image`, and keeps what it leaves there. `word` says what is
// sealed.
fn seal_file(
    console: &mut Console,
    names: Names,
    work: Work,
    word: &[u8],
    sealed: &Map,
    input: &[u8],
    image: &mut [u8],
) -> u8
    requires word_len_bound { length word.now ≤ longest_word }
    requires image_value { (take (length input.now) image.old ≡ input.now) × (length input.now ≤ length image.old) × (full_memory + longest_line ≤ length image.old) }
    ensures value { result ≡ first_of console.new.failed (run_status (in_map sealed.now) work input.now) }
    ensures failure_stays { FailureStays console.old.failed console.new.failed }
{
    let size = input.len();
    let goal = work.goal;
    let guarded = run_sealed(console.rt, work.steps, sealed, &mut image[..size]);
    print_line(console, guarded);
    let status = swear(console, names.image, goal, word, guarded, &image[..size]);
    if first_of(console.failed, status) != 0 {
        return not_written(console, names.after, status);
    }
    let after_size = put_left(image, goal, guarded);
    keep(
        console,
        names.after,
        work,
        sealed,
        input,
        status,
        &image[..after_size],
    )
}

// Reads the image into both buffers, and runs it in the second.
fn seal_argument(
    console: &mut Console,
    names: Names,
    work: Work,
    word: &[u8],
    sealed: &Map,
    input: &mut [u8],
    image: &mut [u8],
) -> Done
    requires word_len_bound { length word.now ≤ longest_word }
    requires input_in_bounds { (length input.old ≤ length image.old) × (full_memory + longest_line ≤ length image.old) }
    ensures { result.status ≡ first_of console.new.failed (run_status (in_map sealed.now) work (take result.size input.new)) }
{
    let size = read_and_test(console, names, input, image);
    if console.failed != 0 {
        return Done {
            size,
            status: console.failed,
        };
    }
    let status = seal_file(console, names, work, word, sealed, &input[..size], image);
    Done { size, status }
}

fn seal(rt: HostRuntime, names: Names, work: Work, word: &[u8], sealed: &Map) -> u8
    requires { length word.now ≤ longest_word }
{
    if is_same_file(rt, names.after, names.image) {
        return refuse(
            rt,
            b"sealed: AFTER is IMAGE, which would be lost; name another file\n",
        );
    }
    let mut input = image_buffer();
    let mut image = image_buffer();
    let mut console = Console::new(rt);
    seal_argument(
        &mut console,
        names,
        work,
        word,
        sealed,
        &mut input,
        &mut image,
    )
    .status
}

fn seal_by_goal(rt: HostRuntime, names: Names, word: &[u8], sealed: &Map) -> u8
    requires { length word.now ≤ longest_word }
{
    match steps_and_stop(rt, b"sealed", 2) {
        Some((steps, goal)) => seal(rt, names, Work { goal, steps }, word, sealed),
        None => WRONG_USAGE,
    }
}

// Names a stretch on standard error, as it is printed. A failure changes nothing: the status is that of wrong usage.
fn name_stretch(rt: HostRuntime, stretch: &[u8])
    requires { length stretch.now ≤ longest_word }
{
    let mut text = word_buffer();
    let mut out = Writer::new(&mut text);
    put_printed(&mut out, stretch);
    let size = out.place();
    let mut console = Console::new(rt);
    console.say(b"sealed: \"");
    console.say(&text[..size]);
}

// Refuses the stretch that stands at a place of the word.
fn refuse_stretch(rt: HostRuntime, word: &[u8], at: usize, sentence: &[u8]) -> u8
    requires { length word.now ≤ longest_word }
{
    let stretch = rest(word, at);
    let end = stretch_end(stretch);
    name_stretch(rt, &stretch[..end]);
    refuse(rt, sentence)
}

fn seal_by_word(rt: HostRuntime, names: Names) -> u8 {
    let mut text = word_buffer();
    let word = argument(rt, 1, &mut text);
    let mut sealed = empty_map();
    match read_stretches(word, &mut sealed) {
        Ok(()) => seal_by_goal(rt, names, word, &sealed),
        Err(Misspelled::Otherwise(at)) => refuse_stretch(
            rt,
            word,
            at,
            b"\" is no stretch: give FIRST-LAST, as 0400-04FF, and a comma between two\n",
        ),
        Err(Misspelled::Backwards(at)) => refuse_stretch(rt, word, at, b"\" runs backwards\n"),
        Err(Misspelled::AtTheStart(at)) => refuse_stretch(
            rt,
            word,
            at,
            b"\" cannot be sealed: the run finds its start at FFFC and FFFD\n",
        ),
    }
}

fn seal_by_arguments(rt: HostRuntime) -> u8 {
    let Some(names) = image_and_after(rt, 4) else {
        return refuse(
            rt,
            b"sealed: give STRETCHES STEPS STOP IMAGE AFTER; ./run sealed --help\n",
        );
    };
    seal_by_word(rt, names)
}

fn main(rt: HostRuntime) {
    hand_over(seal_by_arguments(rt));
}
