// The run of a file: where it begins, and what its parts are.
ghost use Rattle.std.specs.Prelude.{length, true};
ghost use Rattle.manual.specs.Micro.{Gives};
ghost use Rattle.manual.specs.Interrupts.{idle};
ghost use Rattle.manual.specs.Stepping.{long_run};
ghost use Rattle.image_run.specs.Report.{long_image_run};
ghost use Rattle.program_go.specs.Runs.{run_from};

use console::{Console, show_progress};
use console_showing::{Parts, run_in_parts};
use cpu::long_run;
use image_run::start_image;
use manual::{Ended, Lines, Machine};

// The parts of a run of which nothing is shown but how far it is.
struct Unseen;

impl Parts for Unseen {
    // Few enough that the line at the terminal is renewed several times a second.
    const STEPS: u64 = 10000000;

    ghost STEPS = { 10000000 };

    ghost quiet = { true };

    // A part of a run, with idle lines.
    fn make(
        &self,
        _console: &mut Console,
        machine: Machine,
        bound: u64,
        image: &mut [u8],
    ) -> Ended {
        long_run(machine, bound, Lines::idle(), image)
    }

    // How far the run is.
    fn tell(&self, rt: HostRuntime, made: u64) {
        show_progress(rt, b"go", made, b"steps");
    }
}

// A run of at most `steps` steps, with idle lines. Nothing fails there, so that none of it is broken off.
fn run_on(rt: HostRuntime, start: Machine, steps: u64, image: &mut [u8]) -> Ended
    ensures { Gives (long_run (length image.old) steps idle start) image.old result image.new }
{
    let mut console = Console::new(rt);
    run_in_parts(&Unseen, &mut console, start, steps, image)
}

fn run_image(rt: HostRuntime, steps: u64, image: &mut [u8]) -> Ended
    ensures { Gives (long_image_run steps (length image.old)) image.old result image.new }
{
    let machine = start_image(image);
    run_on(rt, machine, steps, image)
}

// A run of at most `steps` steps from where a file begins, with idle lines.
pub(crate) fn run_from(
    rt: HostRuntime,
    start: Option<Machine>,
    steps: u64,
    image: &mut [u8],
) -> Ended
    ensures { Gives (run_from start steps (length image.old)) image.old result image.new }
{
    match start {
        Some(machine) => run_on(rt, machine, steps, image),
        None => run_image(rt, steps, image),
    }
}
