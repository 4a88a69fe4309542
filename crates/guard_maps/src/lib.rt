// What is guarded, and what a step would touch of it.
#![tactic(auto)]

ghost use Rattle.std.specs.Prelude.{ℕ, ◌≡◌, ◌||◌, eqb, replicate};
ghost use Rattle.std.specs.List.{find};
ghost use Rattle.footprint.specs.Places.{addresses};
ghost use Rattle.laws.specs.Answers.{answer_of};
ghost use Rattle.guard_maps.specs.Maps.{in_map, ahead_of, touch_answer, touch_place};

use footprint::places::Footprint;
use footprint::{reads_full, stores_full};
use laws::answers::Refusal;
use manual::{Lines, Machine};
use memory::Memory;

// How many bytes a map has: a bit for each address, address a in bit a % 8 of byte a / 8.
pub const MAP_SIZE: usize = 8192;

// Some addresses.
pub type Map = [u8; MAP_SIZE];

// A map without an address.
pub fn empty_map() -> Map
    ensures { result ≡ replicate 8192 0 }
{
    [0; MAP_SIZE]
}

// Whether a map has an address.
pub fn is_in(map: &Map, place: u16) -> bool
    ensures { result ≡ in_map map.now place }
{
    let at = (place / 8) as usize;
    (map[at] >> (place % 8)) % 2 == 1
}

// Puts an address into a map.
pub fn put_in(map: &mut Map, place: u16)
    ensures { (a : ℕ) → in_map map.new a ≡ (in_map map.old a || eqb a place) }
{
    let at = (place / 8) as usize;
    map[at] |= 1 << (place % 8);
}

// A guarded address that a step would read, or store to.
#[derive(Clone, Copy)]
pub enum Touch {
    Read(u16),
    Store(u16),
}

impl Touch {
    // Why a run is halted before it.
    pub fn refusal(self) -> Refusal
        ensures { answer_of result ≡ touch_answer self }
    {
        match self {
            Touch::Read(_) => Refusal::WouldRead,
            Touch::Store(_) => Refusal::WouldStore,
        }
    }

    // Its address.
    pub fn place(self) -> u16
        ensures { result ≡ touch_place self }
    {
        match self {
            Touch::Read(place) | Touch::Store(place) => place,
        }
    }
}

// The first address of a footprint that a map has.
fn first_in(map: &Map, footprint: Footprint) -> Option<u16>
    ensures { result ≡ find (in_map map.now) (addresses footprint) }
{
    let Footprint { count, places } = footprint;
    places
        .iter()
        .take(count)
        .copied()
        .find(|place| is_in(map, *place))
}

// What is guarded against reads, and what against stores.
#[derive(Clone, Copy)]
pub struct Guards<'a> {
    pub reads: &'a Map,
    pub stores: &'a Map,
}

impl Guards<'_> {
    // What a step from here would touch: the first byte that it would read and must not, otherwise the first that it would store
    // to and must not.
    pub fn look_ahead(self, machine: Machine, lines: Lines, memory: &Memory) -> Option<Touch>
        ensures { result ≡ ahead_of (in_map self.entry.reads.now) (in_map self.entry.stores.now) lines machine memory.now }
    {
        if let Some(place) = first_in(self.reads, reads_full(machine, lines, memory)) {
            return Some(Touch::Read(place));
        }
        let place = first_in(self.stores, stores_full(machine, lines, memory))?;
        Some(Touch::Store(place))
    }
}
