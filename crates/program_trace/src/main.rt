// Prints the states of an image's run, a line for each, in the form that check reads.
//
// run trace COUNT [--] [IMAGE]
//
// COUNT is a decimal number. The image is a file of 65,536 bytes, or standard input if it is `-` or none is named; after
// `--` its name may begin with `-`. It is started as report starts it and makes at most COUNT steps with idle lines. The first
// line is the state that it starts with, and every other one the state after a step: cycles, counter, A, X, Y, S, status, as
// at the end of report's line. A sentence on standard error says how the run ended, with the image's name before it.
//
// Exit status: 0 all COUNT steps were made, and their lines are written; 3 the run ended before that, at a byte that is no
// opcode; 1 the image is not 65,536 bytes long, and nothing is printed; 64 wrong usage, 66 the image cannot be opened, 74
// reading or writing failed.
//
// What the lines, the sentence and the status say is promised by the crates trace_steps, console_showing and statuses; that check accepts
// the lines is the theorem `trace_accepted`.
#![tactic(auto)]

use console::hand_over;
use console_showing::show_by_arguments;
use statuses::Goal;
use trace_text::View;

const USAGE: &[u8] =
    b"trace: give the number of steps, in decimal, and one image; ./run trace --help\n";

fn main(rt: HostRuntime) {
    hand_over(show_by_arguments(rt, 1, View::States, Goal::AllSteps, USAGE));
}
