// The run of an image with some of its bytes sealed: they are blanked first, and guarded against reads, so that all that comes out
// can be handed out.
#![tactic(auto)]

ghost use Rattle.std.specs.Prelude.{◌+◌, ◌≤◌, ◌≡◌, length};
ghost use Rattle.text_writing.specs.Numerals.{decimal};
ghost use Rattle.text_writing.specs.Written.{Writes};
ghost use Rattle.guard_maps.specs.Maps.{in_map};
ghost use Rattle.guard_extract.specs.Extract.{image_extract};
ghost use Rattle.guard_extract.specs.Words.{sealed_status, halt_line, sealed_line, unread, would, oath_text, longest_sealed_line, longest_oath};

use console::wipe_progress;
use guard::extract::blank;
use guard::{Guarded, Halt};
use guard_maps::Map;
use image_run::start_image;
use manual::{Ended, FULL_MEMORY, Reason};
use parts::guard_on;
use sentences::put_line;
use statuses::{Goal, end_status};
use text_writing::Writer;
use trace_fields::put_machine;

mod parts; // parts.rt: the run, in parts
pub mod stretches; // stretches.rt: the word that says what is sealed

// Runs an image for at most so many steps, with idle lines and some addresses sealed.
pub fn run_sealed(rt: HostRuntime, steps: u64, sealed: &Map, image: &mut [u8]) -> Guarded
    ensures { (result, image.new) ≡ image_extract (in_map sealed.now) steps image.old }
{
    let first = start_image(image);
    let Some(memory) = image.as_mut_array::<FULL_MEMORY>() else {
        return Ok(Ended::new(Reason::MemoryNotFull, 0, first));
    };
    blank(sealed, memory);
    let machine = start_image(memory);
    let guarded = guard_on(rt, machine, steps, sealed, memory);
    wipe_progress(rt);
    guarded
}

// The status: that of a run, or 13 if it was halted.
pub fn sealed_status(goal: Goal, guarded: Guarded) -> u8
    ensures { result ≡ sealed_status goal guarded }
{
    match guarded {
        Ok(ended) => end_status(goal, ended),
        Err(halt) => u8::from(halt.touch.refusal()),
    }
}

// The most characters that a line has, and that an oath has besides the word that says what is sealed.
pub const LONGEST_SEALED_LINE: usize = 72;

pub const LONGEST_OATH: usize = 96;

// The line of a run that was halted.
fn put_halt(out: &mut Writer, halt: Halt)
    ensures wrote { Writes out.old (halt_line halt) out.new }
    ensures upper_bound { out.new.at ≤ out.old.at + longest_sealed_line }
{
    out.put_decimal(u8::from(halt.touch.refusal()) as u64);
    out.put_spaced_decimal(halt.steps);
    out.put_byte(b' ');
    put_machine(out, halt.machine);
    out.put_byte(b'\n');
}

// The line: that of report, with 13 if it was halted.
pub fn put_sealed_line(out: &mut Writer, guarded: Guarded)
    ensures wrote { Writes out.old (sealed_line guarded) out.new }
    ensures upper_bound { out.new.at ≤ out.old.at + longest_sealed_line }
{
    match guarded {
        Ok(ended) => put_line(out, ended),
        Err(halt) => put_halt(out, halt),
    }
}

// No sealed byte was read.
fn put_unread(out: &mut Writer, word: &[u8], steps: u64)
    ensures wrote { Writes out.old (unread word.now steps) out.new }
    ensures upper_bound { out.new.at ≤ out.old.at + (longest_oath + length word.now) }
{
    out.put_text(b"no byte of ");
    out.put_text(word);
    out.put_text(b" was read in ");
    out.put_decimal(steps);
    out.put_text(b" steps\n");
}

// The number after a count; after the last count of 64 bits it does not fit, and its last digit is written by itself.
fn put_next(out: &mut Writer, count: u64)
    ensures { Writes out.old (decimal (count + 1)) out.new }
{
    if count == 18446744073709551615 {
        out.put_decimal(1844674407370955161);
        out.put_byte(b'6');
        return;
    }
    out.put_decimal(count + 1);
}

// One would be.
fn put_would(out: &mut Writer, steps: u64, place: u16)
    ensures wrote { Writes out.old (would steps place) out.new }
    ensures upper_bound { out.new.at ≤ out.old.at + longest_oath }
{
    out.put_text(b"halted before step ");
    put_next(out, steps);
    out.put_text(b": it would read the sealed byte at ");
    out.put_hex4(place);
    out.put_byte(b'\n');
}

// What can be sworn of the sealed bytes, in words; they are named by the word that says what is sealed.
pub fn put_oath(out: &mut Writer, word: &[u8], guarded: Guarded)
    ensures wrote { Writes out.old (oath_text word.now guarded) out.new }
    ensures upper_bound { out.new.at ≤ out.old.at + (longest_oath + length word.now) }
{
    match guarded {
        Ok(ended) => put_unread(out, word, ended.steps),
        Err(halt) => put_would(out, halt.steps, halt.touch.place()),
    }
}
