// A guarded run in parts, so that whoever waits sees how far it is.
ghost use Rattle.std.specs.Prelude.{◌≡◌};
ghost use Rattle.manual.specs.Interrupts.{idle};
ghost use Rattle.guard_maps.specs.Maps.{in_map, nowhere};
ghost use Rattle.guard.specs.Guarded.{guarded_full};

use console::show_progress;
use guard::{Guarded, guarded_part};
use guard_maps::{Guards, Map, empty_map};
use manual::{Lines, Machine};
use memory::Memory;

// Few enough that the line at the terminal is renewed several times a second.
const PART: u64 = 5000000;

// A run of at most `steps` steps, with idle lines and some addresses guarded against reads. Not by `run_in_parts`: its parts
// count from the start of the run, and one of these may be halted.
pub(crate) fn guard_on(
    rt: HostRuntime,
    start: Machine,
    steps: u64,
    sealed: &Map,
    image: &mut Memory,
) -> Guarded
    ensures { (result, image.new) ≡ guarded_full (in_map sealed.now) nowhere steps 0 idle start image.old }
{
    let none = empty_map();
    let guards = Guards {
        reads: sealed,
        stores: &none,
    };
    let mut machine = start;
    let mut made: u64 = 0;
    while PART < steps - made {
        let ended = guarded_part(machine, made, made + PART, Lines::idle(), guards, image)?;
        if !ended.reason.is_made() {
            return Ok(ended);
        }
        machine = ended.machine;
        made = ended.steps;
        show_progress(rt, b"sealed", made, b"steps");
    }
    guarded_part(machine, made, steps, Lines::idle(), guards, image)
}
