// What is stored to by a way, in order: a store's target, a modified byte's, and what is pushed.
ghost use Rattle.std.specs.Prelude.{◌≡◌, [], ◌∷◌};
ghost use Rattle.manual.specs.StoreList.{three_pushed};
ghost use Rattle.footprint.specs.Places.{footprint_of};
ghost use Rattle.footprint.specs.Inner.Ways.{target_of, stored_by};

use crate::aims::above;
use crate::places::Footprint;
use crate::reading::reads_to;
use crate::ways::{Storing, Target};
use memory::{Memory, join};
use registers::Registers;

// The addresses of the three bytes that BRK or a line pushes.
pub(crate) fn pushes(registers: Registers) -> Footprint
    ensures { result ≡ footprint_of (three_pushed registers) }
{
    let stack = registers.stack.0;
    Footprint::of([join(1, stack).0, above(stack, 255).0, above(stack, 254).0])
}

// What is stored to by a mode that leads to a byte: the last of what is read by it.
#[tactic(auto, using(crate::specs::Lemmas::LastRead::some_read, crate::specs::Lemmas::LastRead::last_read))]
fn stores_to(target: Target, registers: Registers, memory: &Memory) -> Footprint
    ensures { result ≡ footprint_of (target_of target registers memory.now ∷ []) }
{
    let read = reads_to(target, registers, memory);
    Footprint::of([read.places[read.count - 1]])
}

// What is stored to by a way.
#[tactic(auto, unfolding(crate::specs::Inner::Ways::stored_by))]
pub(crate) fn stores_by(way: Storing, registers: Registers, memory: &Memory) -> Footprint
    ensures { result ≡ footprint_of (stored_by way registers memory.now) }
{
    let stack = registers.stack.0;
    let top = join(1, stack).0;
    match way {
        Storing::Nothing => Footprint::of([]),
        Storing::To(target) => stores_to(target, registers, memory),
        Storing::PushOne => Footprint::of([top]),
        Storing::PushTwo => Footprint::of([top, above(stack, 255).0]),
        Storing::PushThree => pushes(registers),
    }
}
