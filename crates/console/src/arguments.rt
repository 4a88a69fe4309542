// The words after a program's name.
ghost use Rattle.std.specs.Prelude.{◌+◌, ◌≤◌, IfSome, length};

use crate::outputs::refuse_for;
use statuses::Goal;
use std::env::{Env, FillError};
use text_reading::{whole_count, whole_word};

// As many bytes as a word may have that is looked at here: a path that the system takes is shorter.
pub(crate) const LONGEST_WORD: usize = 4096;

// The arguments that name an image, and the file that its run leaves.
#[derive(Clone, Copy)]
pub struct Names {
    pub image: usize,
    pub after: usize,
}

// How many words the program was started with, its own name among them.
pub fn argument_count(rt: HostRuntime) -> usize {
    for index in 0..usize::MAX {
        if let Err(FillError::NotPresent) = rt.arg(index, &mut []) {
            return index;
        }
    }
    usize::MAX
}

// An argument, which is put into a buffer: empty if it is missing or longer than the buffer.
pub fn argument(rt: HostRuntime, index: usize, word: &mut [u8]) -> &[u8]
    ensures { length result.now ≤ length word.old }
{
    match rt.arg(index, word) {
        Ok(length) => &word[..length],
        Err(_) => &[],
    }
}

// Whether an argument is there and is that word.
pub fn argument_is(rt: HostRuntime, index: usize, word: &[u8]) -> bool {
    let mut text = [0u8; LONGEST_WORD];
    rt.arg(index, &mut text)
        .is_ok_and(|length| &text[..length] == word)
}

// Whether an argument stands for standard input: it is `-`, or missing. One question is asked, however many words there are.
pub fn is_standard_input(rt: HostRuntime, index: usize) -> bool {
    let mut text = [0u8; LONGEST_WORD];
    match rt.arg(index, &mut text) {
        Ok(length) => &text[..length] == b"-".as_slice(),
        Err(error) => matches!(error, FillError::NotPresent),
    }
}

// An argument as an address, if it is there and is one.
pub fn address_argument(rt: HostRuntime, index: usize) -> Option<u16> {
    let mut word = [0u8; LONGEST_WORD];
    whole_word(argument(rt, index, &mut word))
}

// An argument as a decimal number of 64 bits, likewise.
pub fn count_argument(rt: HostRuntime, index: usize) -> Option<u64> {
    let mut word = [0u8; LONGEST_WORD];
    whole_count(argument(rt, index, &mut word))
}

// Whether an argument is an option: it begins with `-`, and `-` alone is none, but standard input.
fn is_option(rt: HostRuntime, index: usize) -> bool {
    let mut word = [0u8; LONGEST_WORD];
    matches!(argument(rt, index, &mut word), [b'-', _, ..])
}

// Where the names of files begin among the arguments from an index on: after `--`, if that is the first of them, and then
// a name may begin with `-` too. There is no such place if none stands there and one of them is an option, which no program
// takes.
pub fn names_from(rt: HostRuntime, from: usize) -> Option<usize>
    requires { from ≤ 255 }
    ensures { IfSome result (λ index. index ≤ from + 1) }
{
    if argument_is(rt, from, b"--") {
        return Some(from + 1);
    }
    if (from..argument_count(rt)).any(|index| is_option(rt, index)) {
        return None;
    }
    Some(from)
}

// Where the only name stands among the arguments from an index on: it may be missing, but there is no second.
pub fn name_from(rt: HostRuntime, from: usize) -> Option<usize>
    requires { from ≤ 255 }
    ensures { IfSome result (λ index. index ≤ from + 1) }
{
    let index = names_from(rt, from)?;
    (argument_count(rt) <= index + 1).then_some(index)
}

// The two last arguments, from an index on: IMAGE, and AFTER, which is the name of a file.
pub fn image_and_after(rt: HostRuntime, from: usize) -> Option<Names>
    requires { from ≤ 255 }
{
    let image = names_from(rt, from)?;
    let after = image + 1;
    if argument_count(rt) != after + 1
        || argument_is(rt, after, b"-")
        || argument_is(rt, after, b"")
    {
        return None;
    }
    Some(Names { image, after })
}

// The arguments STEPS and STOP, from an index on: how many steps a run may make, and where it is meant to end. If one is
// wrong the program refuses it here.
pub fn steps_and_stop(rt: HostRuntime, program: &[u8], from: usize) -> Option<(u64, Goal)>
    requires { from ≤ 255 }
{
    let Some(steps) = count_argument(rt, from) else {
        refuse_for(
            rt,
            program,
            b": STEPS is a decimal number below 18446744073709551616\n",
        );
        return None;
    };
    if argument_is(rt, from + 1, b"-") {
        return Some((steps, Goal::AllSteps));
    }
    let Some(address) = address_argument(rt, from + 1) else {
        refuse_for(
            rt,
            program,
            b": STOP is an address, four capital hexadecimal digits, or -\n",
        );
        return None;
    };
    Some((steps, Goal::At(address)))
}

// Where the arguments begin after the option `--stop ADDRESS`, if that stands first, and where a run is meant to end. If no
// address follows the program refuses it here.
pub fn stop_option(rt: HostRuntime, program: &[u8]) -> Option<(usize, Goal)>
    ensures { IfSome result (λ stop. stop.0 ≤ 3) }
{
    if !argument_is(rt, 1, b"--stop") {
        return Some((1, Goal::Unnamed));
    }
    let Some(address) = address_argument(rt, 2) else {
        refuse_for(
            rt,
            program,
            b": after --stop comes an address, four capital hexadecimal digits\n",
        );
        return None;
    };
    Some((3, Goal::At(address)))
}
