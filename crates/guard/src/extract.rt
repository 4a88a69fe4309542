// A run whose memory may be handed out whole: what is sealed is guarded against reads, and blanked before the first step.
ghost use Rattle.std.specs.Prelude.{◌≡◌, length};
ghost use Rattle.guard_maps.specs.Maps.{in_map};
ghost use Rattle.guard.specs.Extract.{blanked, extract};

use crate::{Guarded, guarded_part};
use guard_maps::{Guards, Map, empty_map, is_in};
use manual::{Ended, FULL_MEMORY, Lines, Machine, Reason};
use memory::Memory;

// Puts zeros at the addresses of a map. By index: after `iter_mut` a proof knows no element.
pub fn blank(sealed: &Map, memory: &mut Memory)
    ensures { memory.new ≡ blanked (in_map sealed.now) memory.old }
{
    for i in 0..FULL_MEMORY {
        if is_in(sealed, i as u16) {
            memory[i] = 0;
        }
    }
}

// A run of at most `bound` steps, any number of them, with some addresses sealed. They are zeros before the first step: since
// none is read, that changes no answer, and what is left in them is what the run stored there.
#[tactic(auto, unfolding(crate::specs::Extract::extract))]
pub fn extract(
    machine: Machine,
    bound: u64,
    lines: Lines,
    sealed: &Map,
    memory: &mut [u8],
) -> Guarded
    ensures { (result, memory.new)
        ≡ extract (in_map sealed.now) (length memory.old) bound lines machine memory.old }
{
    let Some(memory) = memory.as_mut_array::<FULL_MEMORY>() else {
        return Ok(Ended::new(Reason::MemoryNotFull, 0, machine));
    };
    blank(sealed, memory);
    let guards = Guards {
        reads: sealed,
        stores: &empty_map(),
    };
    guarded_part(machine, 0, bound, lines, guards, memory)
}
