// Prints a line about an image of 65,536 bytes: how its run ended, and where.
//
// run report [--stop ADDRESS] [--] [IMAGE...]
//
// An image is a file, or standard input if it is `-` or none is named; after `--` a name may begin with `-`. It is run for
// at most 1,000 steps. Its line goes to standard output, and a sentence, with the image's name before it, to standard error.
// If several are named, the name stands after the line too, two spaces apart, its control characters as `?`. ADDRESS, four
// capital hexadecimal digits, is where the program is meant to end: without it nothing counts as finished.
//
// Exit status: 0 the run ended at ADDRESS; 3 at another byte that is no opcode, or no address was given; 20 it was still
// running; 1 the image is not 65,536 bytes long; 64 wrong usage, 66 an image cannot be opened, 74 reading or writing
// failed. Of several images the first status that is not 0; every one that can be read is run.
//
// What the line, the sentence and the status say is promised by image.rt, and by the crates sentences and statuses.
#![tactic(auto)]

ghost use Rattle.std.specs.Prelude.{◌-◌, ◌<◌, ◌≤◌, ◌≡◌, length, take};
ghost use Rattle.statuses.specs.Statuses.{first_of};
ghost use Rattle.console.specs.Failing.{FailureStays};
ghost use Rattle.program_report.specs.Status.{image_status};
ghost use Rattle.program_report.specs.Named.{WroteAfter, longest_named};
ghost use Rattle.sentences.specs.Line.{longest_line};

use console::{
    Console, Done, argument_count, hand_over, names_from, put_name, refuse, stop_option,
};
use console_ending::say_ending;
use image::report;
use memory::image_buffer;
use sentences::LONGEST_LINE;
use statuses::{Goal, WRONG_USAGE, first_of};
use text_writing::Writer;

mod image; // image.rt: the run of an image, and its line

// The most characters that a line has with a name after it, in place of its end: two spaces, the name and the end.
const LONGEST_NAMED: usize = LONGEST_LINE + 4098;

// Puts the name of an argument after a line of so many characters, in place of its end, and answers where it ends.
// A text and its size, and no Writer: the name goes over the line's LF.
fn put_after(rt: HostRuntime, text: &mut [u8], size: usize, index: usize) -> usize
    requires { (0 < size) × (size ≤ longest_line) }
    ensures { WroteAfter text.old (size - 1) text.new result }
{
    let mut out = Writer::from(text, size - 1);
    out.put_text(b"  ");
    put_name(rt, &mut out, index);
    out.put_byte(b'\n');
    out.place()
}

// Writes a line of so many characters, with the name after it if there are several.
fn write_line(console: &mut Console, index: usize, several: bool, text: &mut [u8], size: usize)
    requires { (0 < size) × (size ≤ longest_line) × (length text.old ≡ longest_named) }
    ensures { FailureStays console.old.failed console.new.failed }
{
    if several {
        let end = put_after(console.rt, text, size, index);
        console.write_output(&text[..end]);
    } else {
        console.write_output(&text[..size]);
    }
}

// Reports an image that was read, and answers its status; if that failed, it is not run.
fn report_image(
    console: &mut Console,
    index: usize,
    several: bool,
    goal: Goal,
    image: &mut [u8],
) -> u8
    ensures value { result ≡ first_of console.new.failed (image_status goal image.old) }
    ensures failure_stays { FailureStays console.old.failed console.new.failed }
{
    if console.failed != 0 {
        return console.failed;
    }
    let mut text = [0u8; LONGEST_NAMED];
    let mut out = Writer::new(&mut text);
    let ended = report(image, &mut out);
    let size = out.place();
    write_line(console, index, several, &mut text, size);
    let status = say_ending(console, index, goal, ended, image);
    first_of(console.failed, status)
}

// Reads the image that an argument names into `input`, reports it and answers the status that stays after one that was noted
// before: of several images the first that is not 0. It is run in `image`, so that `input` is left as it was read.
fn report_argument(
    console: &mut Console,
    index: usize,
    several: bool,
    goal: Goal,
    input: &mut [u8],
    image: &mut [u8],
    before: u8,
) -> Done
    requires { length input.old ≤ length image.old }
    ensures status_value { result.status ≡ first_of before (first_of console.new.failed (image_status goal (take result.size input.new))) }
    ensures failure_stays { FailureStays console.old.failed console.new.failed }
{
    let size = console.read_two(index, input, image);
    let own = report_image(console, index, several, goal, &mut image[..size]);
    Done {
        size,
        status: first_of(before, own),
    }
}

// Reports the images that the arguments from an index on name, each on a console of its own, or standard input if there are none.
// Not put into `main`, where wrong usage would need the room of two images too.
#[inline(never)]
fn report_all(rt: HostRuntime, from: usize, goal: Goal) -> u8 {
    let mut input = image_buffer();
    let mut image = image_buffer();
    let mut status: u8 = 0;
    // Standard input stands where the first name would.
    let end = argument_count(rt).max(from.saturating_add(1));
    for index in from..end {
        let mut console = Console::new(rt);
        let done = report_argument(
            &mut console,
            index,
            1 < end - from,
            goal,
            &mut input,
            &mut image,
            status,
        );
        status = done.status;
    }
    status
}

fn report_from(rt: HostRuntime, from: usize, goal: Goal) -> u8
    requires { from ≤ 3 }
{
    let Some(names) = names_from(rt, from) else {
        return refuse(
            rt,
            b"report: the only option is --stop ADDRESS, and it comes first; ./run report --help\n",
        );
    };
    report_all(rt, names, goal)
}

fn report_by_arguments(rt: HostRuntime) -> u8 {
    match stop_option(rt, b"report") {
        Some((from, goal)) => report_from(rt, from, goal),
        None => WRONG_USAGE,
    }
}

fn main(rt: HostRuntime) {
    hand_over(report_by_arguments(rt));
}
