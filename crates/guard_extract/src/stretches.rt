// The word that says what is sealed: stretches such as 0400-04FF, a comma between two of them.
ghost use Rattle.std.specs.Prelude.{◌≡◌, ◌||◌, ℕ, ◌≤◌, length};
ghost use Rattle.text_reading.specs.Found.{place_found};
ghost use Rattle.guard_maps.specs.Maps.{in_map};
ghost use Rattle.guard_extract.specs.Stretches.{in_stretch, holds_start, stretch_found, stretch_at, place_after, Sealing};

use guard_maps::{Map, put_in};
use text_reading::{read_mark, read_word};

// A stretch that stands at a place of a word, and the place after it.
#[derive(Clone, Copy)]
pub struct Stretch {
    pub first: u16,
    pub last: u16,
    pub next: usize,
}

// What is wrong with a word: the place of the first thing that is no stretch, or that runs backwards, or that holds FFFC or FFFD,
// where a run finds its start.
#[derive(Clone, Copy)]
pub enum Misspelled {
    Otherwise(usize),
    Backwards(usize),
    AtTheStart(usize),
}

// The stretch at a place.
fn read_stretch(word: &[u8], at: usize) -> Option<Stretch>
    ensures { result ≡ stretch_found (stretch_at word.now at) }
{
    let first = read_word(word, at)?;
    let last = read_word(word, read_mark(word, first.next, b'-')?)?;
    Some(Stretch {
        first: first.value,
        last: last.value,
        next: last.next,
    })
}

// Puts the addresses of a stretch into it.
fn put_stretch(map: &mut Map, first: u16, last: u16)
    ensures { (a : ℕ) → in_map map.new a ≡ (in_map map.old a || in_stretch first last a) }
{
    for place in first..=last {
        put_in(map, place);
    }
}

// Whether a stretch holds FFFC or FFFD.
fn holds_start(first: u16, last: u16) -> bool
    ensures { result ≡ holds_start first last }
{
    first <= 0xFFFD && 0xFFFC <= last
}

// The place after a stretch: that of the next one, after a comma, or the end of the word; none if something else stands there.
fn place_after(word: &[u8], next: usize) -> Option<usize>
    ensures { result ≡ place_found (place_after word.now next) }
{
    if next == word.len() {
        return Some(next);
    }
    read_mark(word, next, b',')
}

// Puts the stretches of a word into a map, in any order, overlapping or not; all of them, if the word is nothing else.
pub fn read_stretches(word: &[u8], map: &mut Map) -> Result<(), Misspelled>
    ensures { Sealing word.now map.old result map.new }
{
    let mut at: usize = 0;
    loop {
        let Some(stretch) = read_stretch(word, at) else {
            return Err(Misspelled::Otherwise(at));
        };
        let Some(next) = place_after(word, stretch.next) else {
            return Err(Misspelled::Otherwise(at));
        };
        if stretch.last < stretch.first {
            return Err(Misspelled::Backwards(at));
        }
        if holds_start(stretch.first, stretch.last) {
            return Err(Misspelled::AtTheStart(at));
        }
        put_stretch(map, stretch.first, stretch.last);
        if stretch.next == word.len() {
            return Ok(());
        }
        at = next;
    }
}

// How much of a text stands before its first comma.
pub fn stretch_end(text: &[u8]) -> usize
    ensures { result ≤ length text.now }
{
    text.iter()
        .position(|byte| *byte == b',')
        .unwrap_or(text.len())
}
