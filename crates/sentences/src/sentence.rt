// How a run ended, in words.
ghost use Rattle.std.specs.Prelude.{◌+◌, ◌≤◌};
ghost use Rattle.text_writing.specs.Written.{Writes};
ghost use Rattle.sentences.specs.Sentence.{stop, running, refused, meaning, all_made, ended_at, done, sentence, longest_sentence};

use image_halted::is_halted;
use manual::{Ended, Reason};
use memory::{Address, peek};
use statuses::{Goal, reached};
use text_writing::Writer;

// The most characters that the sentence has.
pub const LONGEST_SENTENCE: usize = 80;

fn put_stop(out: &mut Writer, byte: u8, counter: u16)
    ensures { Writes out.old (stop byte counter) out.new }
{
    out.put_text(b"stopped: the byte ");
    out.put_hex2(byte);
    out.put_text(b" at ");
    out.put_hex4(counter);
    out.put_text(b" is no documented opcode\n");
}

fn put_running(out: &mut Writer, steps: u64)
    ensures wrote { Writes out.old (running steps) out.new }
    ensures upper_bound { out.new.at ≤ out.old.at + longest_sentence }
{
    out.put_text(b"not finished: the program was still running after ");
    out.put_decimal(steps);
    out.put_text(b" steps\n");
}

// Writes what is said of an image that is not 65,536 bytes long.
pub fn put_refused(out: &mut Writer, image: &[u8])
    ensures wrote { Writes out.old (refused image.now) out.new }
    ensures upper_bound { out.new.at ≤ out.old.at + longest_sentence }
{
    if is_halted(image) {
        out.put_text(b"refused: it is a halted run, which only go takes\n");
    } else {
        out.put_text(b"refused: the image is not 65536 bytes long\n");
    }
}

fn put_meaning(out: &mut Writer, ended: Ended, image: &[u8])
    ensures wrote { Writes out.old (meaning ended.reason ended.steps ended.machine.registers.counter image.now) out.new }
    ensures upper_bound { out.new.at ≤ out.old.at + longest_sentence }
{
    let counter = ended.machine.registers.counter;
    match ended.reason {
        Reason::Made => put_running(out, ended.steps),
        Reason::MemoryNotFull => put_refused(out, image),
        Reason::NoCycleRoom => {
            out.put_text(b"stopped: the cycle count has no room for another step\n");
        }
        Reason::NotAnOpcode => put_stop(out, peek(image, Address(counter)), counter),
        Reason::BoundTooHigh => {
            out.put_text(b"refused: more than 1000000 steps were asked for\n");
        }
    }
}

fn put_all_made(out: &mut Writer, steps: u64)
    ensures wrote { Writes out.old (all_made steps) out.new }
    ensures upper_bound { out.new.at ≤ out.old.at + longest_sentence }
{
    out.put_text(b"done: all ");
    out.put_decimal(steps);
    out.put_text(b" steps were made\n");
}

fn put_ended_at(out: &mut Writer, counter: u16)
    ensures { Writes out.old (ended_at counter) out.new }
{
    out.put_text(b"done: it ended at ");
    out.put_hex4(counter);
    out.put_text(b", as it was meant to\n");
}

fn put_done(out: &mut Writer, ended: Ended)
    ensures wrote { Writes out.old (done ended.reason ended.steps ended.machine.registers.counter) out.new }
    ensures upper_bound { out.new.at ≤ out.old.at + longest_sentence }
{
    if ended.reason.is_made() {
        put_all_made(out, ended.steps);
    } else {
        put_ended_at(out, ended.machine.registers.counter);
    }
}

// Writes the sentence. `image` is the one that the run left: it may have changed the byte that stopped it.
pub fn put_sentence(out: &mut Writer, goal: Goal, ended: Ended, image: &[u8])
    ensures wrote { Writes out.old (sentence goal ended image.now) out.new }
    ensures upper_bound { out.new.at ≤ out.old.at + longest_sentence }
{
    if reached(goal, ended) {
        put_done(out, ended);
    } else {
        put_meaning(out, ended, image);
    }
}
