// The end of a program that was given an image: the sentence about it, and the status of its run.
#![tactic(auto)]

ghost use Rattle.std.specs.Prelude.{◌≡◌};
ghost use Rattle.statuses.specs.Statuses.{end_status};
ghost use Rattle.console.specs.Failing.{FailureStays};

use console::Console;
use manual::Ended;
use sentences::{LONGEST_SENTENCE, put_refused, put_sentence};
use statuses::{Goal, end_status};
use text_writing::Writer;

// Says how the run of the image that an argument names ended, and answers the status of that end. `image` is the one that the
// run left.
pub fn say_ending(console: &mut Console, index: usize, goal: Goal, ended: Ended, image: &[u8]) -> u8
    ensures value { result ≡ end_status goal ended }
    ensures failure_stays { FailureStays console.old.failed console.new.failed }
{
    let mut text = [0u8; LONGEST_SENTENCE];
    let mut out = Writer::new(&mut text);
    put_sentence(&mut out, goal, ended, image);
    let size = out.place();
    console.say_of(index, &text[..size]);
    end_status(goal, ended)
}

// Says what an image is that is not 65,536 bytes long, for a program that makes no run of it.
pub fn say_refused(console: &mut Console, index: usize, image: &[u8])
    ensures { FailureStays console.old.failed console.new.failed }
{
    let mut text = [0u8; LONGEST_SENTENCE];
    let mut out = Writer::new(&mut text);
    put_refused(&mut out, image);
    let size = out.place();
    console.say_of(index, &text[..size]);
}
