// A run that is made part by part, so that whoever waits sees how far it is: all parts together are the whole run (the theorems
// `lunch` and `in_parts`).
ghost use Rattle.std.specs.Prelude.{Bool, ℕ, ◌<◌, ◌≤◌, ◌≡◌, length, true};
ghost use Rattle.manual.specs.Micro.{Gives};
ghost use Rattle.manual.specs.Interrupts.{idle};
ghost use Rattle.manual.specs.Stepping.{long_run};
ghost use Rattle.console.specs.Failing.{FailureStays};

use console::Console;
use manual::{Ended, Machine};

// What the parts of a run are.
pub trait Parts {
    // How many steps a part has.
    const STEPS: u64;

    ghost STEPS: { ℕ };

    // Whether nothing can fail there.
    ghost quiet: { Bool };

    // Makes a part of so many steps at most. What fails there is noted.
    fn make(&self, console: &mut Console, machine: Machine, bound: u64, image: &mut [u8]) -> Ended
        requires { bound ≤ STEPS }
        ensures gives { Gives (long_run (length image.old) bound idle machine) image.old result image.new }
        ensures failure_stays { FailureStays console.old.failed console.new.failed }
        ensures none_fails { quiet ≡ true → console.new.failed ≡ console.old.failed };

    // Tells how many steps are made.
    fn tell(&self, rt: HostRuntime, made: u64);
}

// A run of at most `steps` steps, part by part. It is broken off if a part fails.
pub fn run_in_parts<P: Parts>(
    parts: &P,
    console: &mut Console,
    start: Machine,
    steps: u64,
    image: &mut [u8],
) -> Ended
    requires { 0 < P.STEPS }
    ensures gives { console.new.failed ≡ 0 → Gives (long_run (length image.old) steps idle start) image.old result image.new }
    ensures failure_stays { FailureStays console.old.failed console.new.failed }
    ensures none_fails { P.quiet ≡ true → console.new.failed ≡ console.old.failed }
{
    let mut machine = start;
    let mut made: u64 = 0;
    while P::STEPS < steps - made {
        let ended = parts.make(console, machine, P::STEPS, image);
        if console.failed != 0 {
            return ended;
        }
        if !ended.reason.is_made() {
            return Ended {
                steps: made + ended.steps,
                ..ended
            };
        }
        machine = ended.machine;
        made += P::STEPS;
        parts.tell(console.rt, made);
    }
    let last = parts.make(console, machine, steps - made, image);
    Ended {
        steps: made + last.steps,
        ..last
    }
}
