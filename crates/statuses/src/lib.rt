// The exit status of a program: what it was asked for, whether that is done, and the number that says so.
#![tactic(auto)]

ghost use Rattle.std.specs.Prelude.{◌+◌, ◌≤◌, ◌≡◌};
ghost use Rattle.text_writing.specs.Written.{Writes};
ghost use Rattle.statuses.specs.Statuses.{reached as Statuses·reached, end_status, check_status, rescue_status, log_status, first_of, status_line, longest_status};

use laws::answers::*;
use manual::{Ended, FULL_MEMORY, Reason};
use text_writing::Writer;

// The statuses that are no answer number.
pub const STILL_RUNNING: u8 = 20;

pub const SOMETHING_LOST: u8 = 21;

pub const WRONG_USAGE: u8 = 64;

pub const NOT_OPENED: u8 = 66;

pub const FAILED: u8 = 74;

// Where a run is meant to end: nowhere that is named, at an address, or once all its steps are made.
#[derive(Clone, Copy)]
pub enum Goal {
    Unnamed,
    At(u16),
    AllSteps,
}

// Whether a run ended where it was meant to.
#[tactic(auto, unfolding(crate::specs::Statuses::reached))]
pub fn reached(goal: Goal, ended: Ended) -> bool
    ensures { result ≡ Statuses·reached goal ended }
{
    match goal {
        Goal::Unnamed => false,
        Goal::At(address) => {
            ended.reason == Reason::NotAnOpcode && ended.machine.registers.counter == address
        }
        Goal::AllSteps => ended.reason.is_made(),
    }
}

// The status of a run: 0 if it ended as it was meant to, and otherwise its answer number, or 20 for 0.
#[tactic(auto, unfolding(crate::specs::Statuses::end_status))]
pub fn end_status(goal: Goal, ended: Ended) -> u8
    ensures { result ≡ end_status goal ended }
{
    if reached(goal, ended) {
        return 0;
    }
    if ended.reason.is_made() {
        return STILL_RUNNING;
    }
    u8::from(ended.reason)
}

// The status of a list that was checked: 0 if it has a line and no fault.
pub fn check_status(lines: u64, faults: u64) -> u8
    ensures { result ≡ check_status lines faults }
{
    (lines == 0 || faults != 0) as u8
}

// The status of a tape that was rescued: 0 only if nothing was dropped and a reader takes the old tape too. Otherwise the
// rescue's answer number, 21 if something was dropped, or the reader's answer: a record that is missing was not dropped.
// Answer numbers: its definition, and that of `log_status`, are over numbers, which are the exit statuses.
pub fn rescue_status(answer: u8, dropped: u64, read: u8) -> u8
    ensures { result ≡ rescue_status answer dropped read }
{
    if answer != NOT_REFUSED {
        return answer;
    }
    if dropped == 0 {
        return read;
    }
    SOMETHING_LOST
}

// The status of a log that was checked on an image of so many bytes: the check's answer, 1 if the image is not whole,
// and 11 if no entry is bad because there is none.
pub fn log_status(size: usize, answer: u8, lines: u64) -> u8
    ensures { result ≡ log_status size answer lines }
{
    if size != FULL_MEMORY {
        return MEMORY_NOT_FULL;
    }
    if answer != NOT_REFUSED {
        return answer;
    }
    if lines == 0 {
        return MALFORMED_ENTRY;
    }
    0
}

// The status of several pieces of work: the first that is not 0.
pub fn first_of(before: u8, now: u8) -> u8
    ensures { result ≡ first_of before now }
{
    if before == 0 {
        return now;
    }
    before
}

// The most characters that the line of a status has.
pub const LONGEST_STATUS: usize = 16;

// The line by which a program hands its status over.
pub fn put_status(out: &mut Writer, status: u8)
    ensures wrote { Writes out.old (status_line status) out.new }
    ensures upper_bound { out.new.at ≤ out.old.at + longest_status }
{
    out.put_text(b"status ");
    out.put_decimal(status as u64);
    out.put_byte(b'\n');
}
