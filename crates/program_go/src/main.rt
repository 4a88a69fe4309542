// Runs an image for as many steps as are asked for, and keeps what it leaves if it ended as it was meant to.
//
// run go STEPS STOP [--] IMAGE AFTER
//
// At most STEPS steps are made, a decimal number of 64 bits. STOP is where the program is meant to end, four capital
// hexadecimal digits; with `-` it is meant to make all STEPS steps, as one that is halted and goes on later. IMAGE is a file
// of 65,536 bytes, or standard input if it is `-`. The run begins as that of report, and its line goes to standard output;
// a sentence, with the image's name before it, goes to standard error. AFTER is another file. If the run ended as it was
// meant to, the memory after it is written there, whole and at once; otherwise a file of that name is left as it was.
// With `-` AFTER is a halted run: the memory, and then the line of the state, as trace writes it. Such a file is an IMAGE
// too: the run goes on from that state, so two runs are one (the theorem `lunch_of_files`). Its own steps alone are counted,
// and all cycles.
//
// Exit status: 0 the run ended so, and AFTER is written; 3 at a byte that is no opcode, elsewhere than at STOP; 20 it was
// still running; 1 the image is neither 65,536 bytes long nor a halted run; 2 no room for more cycles; 64 wrong usage, also
// where AFTER is IMAGE by another name; 66 the image cannot be opened, 74 reading or writing failed.
//
// What is run, the line, the sentence, the status and what is kept are promised by the functions below, and by the crates
// image_run, statuses and image_halted.
#![tactic(auto)]

ghost use Rattle.std.specs.Prelude.{◌+◌, ◌≤◌, ◌≡◌, length, take};
ghost use Rattle.manual.specs.Stepping.{full_memory};
ghost use Rattle.statuses.specs.Statuses.{first_of};
ghost use Rattle.console.specs.Failing.{FailureStays};
ghost use Rattle.program_go.specs.Runs.{go_status, go_after};
ghost use Rattle.trace_line.specs.Lines.{longest_line};

use console::{
    Console, Done, Names, hand_over, image_and_after, refuse, steps_and_stop, wipe_progress,
};
use console_ending::say_ending;
use console_files::{is_same_file, not_written, read_and_test, replace};
use image_halted::{open, put_after};
use manual::Ended;
use memory::image_buffer;
use running::run_from;
use sentences::{LONGEST_LINE, put_line};
use statuses::{Goal, WRONG_USAGE, first_of};
use text_writing::Writer;

mod running; // running.rt: the run of a file

// Where the run is meant to end, and how many steps it may make.
#[derive(Drop)]
struct Work {
    goal: Goal,
    steps: u64,
}

fn print_line(console: &mut Console, ended: Ended)
    ensures { FailureStays console.old.failed console.new.failed }
{
    let mut text = [0u8; LONGEST_LINE];
    let mut out = Writer::new(&mut text);
    put_line(&mut out, ended);
    let size = out.place();
    console.write_output(&text[..size]);
}

// Keeps a file that a run left. `input` is what was read: only if its status is 0, and only what the definition says.
fn keep(
    console: &mut Console,
    after: usize,
    work: Work,
    input: &[u8],
    status: u8,
    file: &[u8],
) -> u8
    requires status_value { (status ≡ 0) × (go_status work.goal work.steps input.now ≡ 0) × (file.now ≡ go_after work.goal work.steps input.now) }
    requires failed_value { console.old.failed ≡ 0 }
    ensures value { result ≡ first_of console.new.failed status }
    ensures failure_stays { FailureStays console.old.failed console.new.failed }
{
    replace(console, after, status, file)
}

// Runs what was read, in the copy of it that stands at the start of `image`, and keeps what it leaves there.
fn go_file(console: &mut Console, names: Names, work: Work, input: &[u8], image: &mut [u8]) -> u8
    requires { (take (length input.now) image.old ≡ input.now) × (length input.now ≤ length image.old) × (full_memory + longest_line ≤ length image.old) }
    ensures value { result ≡ first_of console.new.failed (go_status work.goal work.steps input.now) }
    ensures failure_stays { FailureStays console.old.failed console.new.failed }
{
    let opened = open(input);
    let size = opened.size;
    let goal = work.goal;
    let ended = run_from(console.rt, opened.start, work.steps, &mut image[..size]);
    wipe_progress(console.rt);
    print_line(console, ended);
    let status = say_ending(console, names.image, goal, ended, &image[..size]);
    if first_of(console.failed, status) != 0 {
        return not_written(console, names.after, status);
    }
    let after_size = put_after(image, goal, ended.machine);
    keep(
        console,
        names.after,
        work,
        input,
        status,
        &image[..after_size],
    )
}

// Reads the image into both buffers, and runs it in the second.
fn go_argument(
    console: &mut Console,
    names: Names,
    work: Work,
    input: &mut [u8],
    image: &mut [u8],
) -> Done
    requires { (length input.old ≤ length image.old) × (full_memory + longest_line ≤ length image.old) }
    ensures { result.status ≡ first_of console.new.failed (go_status work.goal work.steps (take result.size input.new)) }
{
    let size = read_and_test(console, names, input, image);
    if console.failed != 0 {
        return Done {
            size,
            status: console.failed,
        };
    }
    let status = go_file(console, names, work, &input[..size], image);
    Done { size, status }
}

fn go(rt: HostRuntime, names: Names, work: Work) -> u8 {
    if is_same_file(rt, names.after, names.image) {
        return refuse(
            rt,
            b"go: AFTER is IMAGE, which would be lost; name another file\n",
        );
    }
    let mut input = image_buffer();
    let mut image = image_buffer();
    let mut console = Console::new(rt);
    go_argument(&mut console, names, work, &mut input, &mut image).status
}

fn go_by_arguments(rt: HostRuntime) -> u8 {
    let Some(names) = image_and_after(rt, 3) else {
        return refuse(rt, b"go: give STEPS STOP IMAGE AFTER; ./run go --help\n");
    };
    match steps_and_stop(rt, b"go", 1) {
        Some((steps, goal)) => go(rt, names, Work { goal, steps }),
        None => WRONG_USAGE,
    }
}

fn main(rt: HostRuntime) {
    hand_over(go_by_arguments(rt));
}
