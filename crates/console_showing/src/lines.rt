// The run, with its lines.
ghost use Rattle.std.specs.Prelude.{◌≤◌, ◌≡◌, false, length};
ghost use Rattle.manual.specs.Micro.{Gives};
ghost use Rattle.image_run.specs.Report.{long_image_run};
ghost use Rattle.console.specs.Failing.{FailureStays};

use crate::parts::{Parts, run_in_parts};
use console::{Console, show_progress};
use image_run::start_image;
use manual::{Ended, FULL_MEMORY, Machine};
use std::io::IsTerminal;
use text_writing::Writer;
use trace_line::{LONGEST_LINE, put_line};
use trace_steps::put_steps;
use trace_text::View;

// Room for the lines of a part.
const LONGEST_PART: usize = 52000;

impl Parts for View {
    // Each part has its lines in one buffer.
    const STEPS: u64 = 1000;

    ghost STEPS = { 1000 };

    ghost quiet = { false };

    // A part of a run, with its lines.
    fn make(&self, console: &mut Console, machine: Machine, bound: u64, image: &mut [u8]) -> Ended {
        let mut text = [0u8; LONGEST_PART];
        let mut out = Writer::new(&mut text);
        let ended = put_steps(&mut out, *self, machine, bound, image);
        let size = out.place();
        console.write_output(&text[..size]);
        ended
    }

    // How far a trace is, if its lines do not go to the terminal themselves.
    fn tell(&self, rt: HostRuntime, made: u64) {
        if matches!(self, View::States) && !rt.stdout().is_terminal() {
            show_progress(rt, b"trace", made, b"steps");
        }
    }
}

// The line of the state that a run starts with, before the lines of the states after its steps. An image of another length has
// none.
fn write_start(console: &mut Console, view: View, machine: Machine, length: usize)
    ensures { FailureStays console.old.failed console.new.failed }
{
    if matches!(view, View::States) && length == FULL_MEMORY {
        let mut text = [0u8; LONGEST_LINE];
        let mut out = Writer::new(&mut text);
        put_line(&mut out, machine);
        let size = out.place();
        console.write_output(&text[..size]);
    }
}

// The run of an image, with its lines.
pub(crate) fn show_run(console: &mut Console, view: View, count: u64, image: &mut [u8]) -> Ended
    ensures gives { console.new.failed ≡ 0 → Gives (long_image_run count (length image.old)) image.old result image.new }
    ensures failure_stays { FailureStays console.old.failed console.new.failed }
{
    let machine = start_image(image);
    write_start(console, view, machine, image.len());
    run_in_parts(&view, console, machine, count, image)
}
