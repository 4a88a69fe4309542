// Checks a recorded trace: entries that each spell a state, of which every later one is to be the state after one step
// from the entry before, with idle lines.
#![tactic(auto)]

ghost use Rattle.std.specs.Prelude.{◌≡◌, ◌≤◌, ◌<◌, length};
ghost use Rattle.text_writing.specs.Delivered.{answer_in};
ghost use Rattle.trace_checking.specs.Inner.Cutting.{whole_end};
ghost use Rattle.trace_checking.specs.Checking.{part_numbers, checked_numbers, accepted, checked_part, closed, checked_trace};

use laws::answers::Refusal;
use manual::{FULL_MEMORY, Machine};
use trace_line::read_state;
use trace_step::follow;

// What a part of a trace shows: why the entry after the accepted ones is bad, if one is; how many were accepted in it, and the
// last accepted one, here or before it.
#[derive(Clone, Copy)]
pub struct Part {
    pub refusal: Option<Refusal>,
    pub lines: usize,
    pub last: Option<Machine>,
}

// Why a trace is not accepted, and which entry is the first bad one, counted from 1: 0 if a memory is not full.
#[derive(Clone, Copy)]
pub struct Bad {
    pub refusal: Refusal,
    pub line: usize,
}

// Whether a state may stand in the next entry; if so, the step to it is made.
// A match and no `is_none_or`: the step overwrites the memory.
fn accept(last: Option<Machine>, next: Machine, copy: &mut [u8]) -> bool
    ensures { (result, copy.new) ≡ accepted last next copy.old }
{
    match last {
        None => true,
        Some(machine) => follow(machine, next, copy),
    }
}

// Checks a part of a trace that begins with an entry, after `start`, on the memory that the entries before it leave. A part that
// ends with LF can be followed by another one: the theorem `joined` says that this checks the two as one.
pub fn check_part(start: Option<Machine>, part: &[u8], copy: &mut [u8]) -> Part
    ensures copy_after { (part_numbers result, copy.new) ≡ checked_part start copy.old part.now }
    ensures lines_in_bounds { result.lines ≤ length part.now }
{
    let mut last = start;
    let mut at: usize = 0;
    let mut lines: usize = 0;
    // no `for`: an entry ends where its reading says
    while at < part.len() {
        let Some(spelled) = read_state(part, at) else {
            let refusal = Some(Refusal::MalformedEntry);
            return Part {
                refusal,
                lines,
                last,
            };
        };
        if !accept(last, spelled.machine, copy) {
            let refusal = Some(Refusal::StrayEntry);
            return Part {
                refusal,
                lines,
                last,
            };
        }
        last = Some(spelled.machine);
        at = spelled.next;
        lines += 1;
    }
    Part {
        refusal: None,
        lines,
        last,
    }
}

// The place after the last LF of a text: so far it consists of whole entries.
pub fn whole_lines(text: &[u8]) -> usize
    ensures value { result ≡ whole_end text.now }
    ensures upper_bound { result ≤ length text.now }
{
    // Not `rposition`: tried, and no law of the library led from its promise to the definition.
    for last in (0..text.len()).rev() {
        if text[last] == b'\n' {
            return last + 1;
        }
    }
    0
}

// What all entries of a trace show: a trace without an entry is malformed too, entry 1 is missing.
fn close(part: Part) -> Result<(), Bad>
    requires { part.lines < 18446744073709551615 }
    ensures { checked_numbers result ≡ closed (answer_in part.refusal) part.lines }
{
    if let Some(refusal) = part.refusal {
        let line = part.lines + 1;
        return Err(Bad { refusal, line });
    }
    if part.lines == 0 {
        let refusal = Refusal::MalformedEntry;
        return Err(Bad { refusal, line: 1 });
    }
    Ok(())
}

// Makes the copy the image. Not by `copy_from_slice`: the archive for C would need the C library for it.
fn copy_image(image: &[u8], copy: &mut [u8])
    requires { length copy.old ≡ length image.now }
    ensures { copy.new ≡ image.now }
{
    for at in 0..image.len() {
        copy[at] = image[at];
    }
}

// Checks a trace against an image. `copy` starts as the image and is left as the accepted entries leave it; only a memory that is
// not full leaves it untouched.
pub fn check_trace(image: &[u8], lines: &[u8], copy: &mut [u8]) -> Result<(), Bad>
    ensures { (checked_numbers result, copy.new) ≡ checked_trace image.now lines.now copy.old }
{
    if image.len() != FULL_MEMORY || copy.len() != FULL_MEMORY {
        let refusal = Refusal::MemoryNotFull;
        return Err(Bad { refusal, line: 0 });
    }
    copy_image(image, copy);
    close(check_part(None, lines, copy))
}
