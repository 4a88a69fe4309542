// The tapes and Intel HEX, for a host in C or Rust: see host/include/mos6502_tapes.h.
#![tactic(auto)]

ghost use Rattle.std.specs.Prelude.{◌≡◌};
ghost use Rattle.tape_paper.specs.Tapes.{read_tape};
ghost use Rattle.tape_intel.specs.IntelHex.{read_hex};
ghost use Rattle.tape_moving.specs.Moving.{tape_to_hex, hex_to_tape};
ghost use Rattle.tape_punching.specs.Punching.{tape_into};
ghost use Rattle.tape_rescuing.specs.Rescuing.{rescued};

use tape_loading::number_and_reach;

// Reads a tape onto a memory.
#[unsafe(no_mangle)]
pub extern "C" fn mos6502_tape_load(
    text: &[u8],
    memory: &mut [u8],
    good: &mut u64,
    place: &mut usize,
) -> u8
    ensures { record { answer = result; good = good.new; place = place.new; memory = memory.new }
        ≡ read_tape text.now memory.old }
{
    let (answer, reach) = number_and_reach(tape_loading::read_tape(text, memory));
    *good = reach.good;
    *place = reach.place;
    answer
}

// Reads Intel HEX onto a memory.
#[unsafe(no_mangle)]
pub extern "C" fn mos6502_hex_load(
    text: &[u8],
    memory: &mut [u8],
    good: &mut u64,
    place: &mut usize,
) -> u8
    ensures { record { answer = result; good = good.new; place = place.new; memory = memory.new }
        ≡ read_hex text.now memory.old }
{
    let (answer, reach) = number_and_reach(tape_loading::read_hex(text, memory));
    *good = reach.good;
    *place = reach.place;
    answer
}

// Moves a tape to Intel HEX.
#[unsafe(no_mangle)]
pub extern "C" fn mos6502_tape_to_hex(
    text: &[u8],
    out: &mut [u8],
    size: &mut usize,
    good: &mut u64,
    place: &mut usize,
) -> u8
    ensures { record {
      answer = result;
      size = size.new;
      good = good.new;
      place = place.new;
      buffer = out.new;
    }
        ≡ tape_to_hex text.now out.old }
{
    let (answer, length, reach) = tape_moving::numbers_of(tape_moving::tape_to_hex(text, out));
    *size = length;
    *good = reach.good;
    *place = reach.place;
    answer
}

// Moves Intel HEX to a tape.
#[unsafe(no_mangle)]
pub extern "C" fn mos6502_hex_to_tape(
    text: &[u8],
    out: &mut [u8],
    size: &mut usize,
    good: &mut u64,
    place: &mut usize,
) -> u8
    ensures { record {
      answer = result;
      size = size.new;
      good = good.new;
      place = place.new;
      buffer = out.new;
    }
        ≡ hex_to_tape text.now out.old }
{
    let (answer, length, reach) = tape_moving::numbers_of(tape_moving::hex_to_tape(text, out));
    *size = length;
    *good = reach.good;
    *place = reach.place;
    answer
}

// Punches a stretch of memory.
#[unsafe(no_mangle)]
pub extern "C" fn mos6502_tape_punch(
    memory: &[u8],
    first: u16,
    last: u16,
    text: &mut [u8],
    size: &mut usize,
) -> u8
    ensures { record { answer = result; size = size.new; buffer = text.new }
        ≡ tape_into memory.now first last text.old }
{
    let (answer, length) = text_writing::numbers_of(tape_punching::punch(
        memory, first, last, text,
    ));
    *size = length;
    answer
}

// Saves what is good of a torn tape.
#[unsafe(no_mangle)]
pub extern "C" fn mos6502_tape_rescue(
    text: &[u8],
    out: &mut [u8],
    size: &mut usize,
    kept: &mut u64,
    dropped: &mut u64,
    first: &mut usize,
) -> u8
    ensures { record {
      answer = result;
      size = size.new;
      kept = kept.new;
      dropped = dropped.new;
      first = first.new;
      buffer = out.new;
    }
        ≡ rescued text.now out.old }
{
    let (answer, rescued) = tape_rescuing::numbers_of(tape_rescuing::rescue(text, out));
    *size = rescued.size;
    *kept = rescued.tally.kept;
    *dropped = rescued.tally.dropped;
    *first = rescued.tally.first;
    answer
}

// The version of these functions. A host asks for it by this name, so that an older archive does not link, and the linker says
// what to do. It changes, in the name too, with any change that a host would have to follow.
#[unsafe(no_mangle)]
pub extern "C" fn mos6502_tapes_version_1_run_rt_staticlib_mos6502_tapes() -> u8
    ensures { result ≡ 1 }
{
    1
}
