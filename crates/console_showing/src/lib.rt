// A run whose lines are written while it is made, part by part: all parts together are the whole run.
#![tactic(auto)]

ghost use Rattle.std.specs.Prelude.{◌≤◌, ◌≡◌, length, take};
ghost use Rattle.statuses.specs.Statuses.{first_of};
ghost use Rattle.console.specs.Failing.{FailureStays};
ghost use Rattle.console_showing.specs.Status.{run_status};

use console::{Console, Done, count_argument, name_from, refuse, wipe_progress};
use console_ending::say_ending;
use lines::show_run;
use memory::image_buffer;
use statuses::{Goal, first_of};
use trace_text::View;

mod lines; // lines.rt: the run, with its lines
mod parts; // parts.rt: a run that is made part by part

pub use parts::{Parts, run_in_parts};

// What is shown of a run, where it is meant to end, and how many steps it may make.
#[derive(Clone, Copy)]
pub struct Showing {
    pub view: View,
    pub goal: Goal,
    pub count: u64,
}

// Shows the run of an image, says how it ended, and answers its status. If its lines cannot be written nothing is said of it.
fn show_image(console: &mut Console, index: usize, showing: Showing, image: &mut [u8]) -> u8
    ensures value { result ≡ first_of console.new.failed (run_status showing.goal showing.count image.old) }
    ensures failure_stays { FailureStays console.old.failed console.new.failed }
{
    let ended = show_run(console, showing.view, showing.count, image);
    wipe_progress(console.rt);
    if console.failed != 0 {
        return console.failed;
    }
    let status = say_ending(console, index, showing.goal, ended, image);
    first_of(console.failed, status)
}

// The same of the image that an argument names. It is read into `input` and run in `image`, so that `input` is left as it was
// read.
fn show_argument(
    console: &mut Console,
    index: usize,
    showing: Showing,
    input: &mut [u8],
    image: &mut [u8],
) -> Done
    requires { length input.old ≤ length image.old }
    ensures status_value { result.status ≡ first_of console.new.failed (run_status showing.goal showing.count (take result.size input.new)) }
    ensures failure_stays { FailureStays console.old.failed console.new.failed }
{
    let size = console.read_two(index, input, image);
    if console.failed != 0 {
        return Done {
            size,
            status: console.failed,
        };
    }
    let status = show_image(console, index, showing, &mut image[..size]);
    Done { size, status }
}

// The same, with room for the image.
pub fn show_input(rt: HostRuntime, index: usize, showing: Showing) -> u8 {
    let mut input = image_buffer();
    let mut image = image_buffer();
    let mut console = Console::new(rt);
    show_argument(&mut console, index, showing, &mut input, &mut image).status
}

// Shows the run that the arguments from an index on ask for, the number of its steps and its image, and answers its status. If
// they are not these it says what the program takes.
pub fn show_by_arguments(rt: HostRuntime, from: usize, view: View, goal: Goal, usage: &[u8]) -> u8
    requires { from ≤ 254 }
{
    match (count_argument(rt, from), name_from(rt, from + 1)) {
        (Some(count), Some(index)) => show_input(rt, index, Showing { view, goal, count }),
        _ => refuse(rt, usage),
    }
}
