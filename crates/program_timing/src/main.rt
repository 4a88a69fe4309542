// Prints the first steps of an image's run, a line each: the instruction, its cycles, and the first address on the bus.
//
// run timing [--stop ADDRESS] COUNT [--] [IMAGE]
//
// COUNT is a decimal number. The image is a file of 65,536 bytes, or standard input if it is `-` or none is named; after
// `--` its name may begin with `-`. It is started as report starts it and makes at most COUNT steps. The line of a step is
// that of the listing for the instruction, then the cycles that the step took, in decimal, and its first address on the
// bus, 0000 if it has none: if an index crosses a page, the first address is in the wrong page. A
// sentence on standard error says how the run ended, with the image's name before it.
//
// Exit status: as of report. 0 the run ended at ADDRESS; 3 at another byte that is no opcode, or no address was given; 20 it
// was still running after COUNT steps; 1 the image is not 65,536 bytes long; 64 wrong usage, 66 the image cannot be opened,
// 74 reading or writing failed.
//
// What the lines, the sentence and the status say is promised by the crates trace_steps, console_showing and statuses.
#![tactic(auto)]

use console::{hand_over, stop_option};
use console_showing::show_by_arguments;
use statuses::WRONG_USAGE;
use trace_text::View;

const USAGE: &[u8] =
    b"timing: give the number of steps, in decimal, and one image; ./run timing --help\n";

fn time_by_arguments(rt: HostRuntime) -> u8 {
    match stop_option(rt, b"timing") {
        Some((from, goal)) => show_by_arguments(rt, from, View::Steps, goal, USAGE),
        None => WRONG_USAGE,
    }
}

fn main(rt: HostRuntime) {
    hand_over(time_by_arguments(rt));
}
