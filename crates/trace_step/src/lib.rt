// A step that counts only if it leads to a given state: otherwise it is taken back.
#![tactic(auto)]

ghost use Rattle.std.specs.Prelude.{◌≡◌};
ghost use Rattle.trace_step.specs.Following.{leads_to, followed};
ghost use Rattle.trace_step.specs.Inner.Restoring.{put_back};

use cpu::single_step;
use footprint::stores_of;
use manual::{FULL_MEMORY, Lines, Machine, Stepped};
use memory::{Address, Memory, get_byte, set_byte};

// Whether a step was made and leads to a machine. The definition compares the status as the byte that PHP pushes, which tells the six
// flags.
fn leads_to(stepped: Stepped, next: Machine) -> bool
    ensures { result ≡ leads_to stepped next }
{
    stepped.reason.is_made() && stepped.machine == next
}

// Puts a byte at each of the first three places. Three lines: a loop over an array of the bytes would be no shorter.
fn put_back(places: [u16; 5], first: u8, second: u8, third: u8, memory: &mut Memory)
    ensures { memory.new ≡ put_back places first second third memory.old }
{
    set_byte(memory, Address(places[0]), first);
    set_byte(memory, Address(places[1]), second);
    set_byte(memory, Address(places[2]), third);
}

// Makes a step with idle lines if it leads to `next`; otherwise the memory is as it was. A step stores to three places at most. A
// place that it does not store to, or that is named twice, does no harm.
pub fn follow(machine: Machine, next: Machine, memory: &mut [u8]) -> bool
    ensures { (result, memory.new) ≡ followed machine next memory.old }
{
    let Some(memory) = memory.as_mut_array::<FULL_MEMORY>() else {
        return false;
    };
    let stored = stores_of(machine, Lines::idle(), memory);
    let places = stored.places;
    let first = get_byte(memory, Address(places[0]));
    let second = get_byte(memory, Address(places[1]));
    let third = get_byte(memory, Address(places[2]));
    let stepped = single_step(machine, Lines::idle(), memory);
    if leads_to(stepped, next) {
        return true;
    }
    put_back(places, first, second, third, memory);
    false
}
