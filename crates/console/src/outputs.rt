// Text that is written, what fails, and the status.
ghost use Rattle.std.specs.Prelude.{◌≡◌};
ghost use Rattle.statuses.specs.Statuses.{first_of};
ghost use Rattle.console.specs.Failing.{FailureStays};

use crate::reasons::say_why;
use statuses::{FAILED, LONGEST_STATUS, WRONG_USAGE, first_of, put_status};
use text_writing::Writer;

// The descriptor on which `run` waits for the status.
const STATUS_FILENO: i32 = 3;

// The system, and the first status that says that something failed there: 0 before there is one.
// A number and no Option: `first_of` of statuses, which the programs promise, is over numbers. That a failure stays is said by
// each function: no invariant speaks of before and after.
#[derive(Drop)]
pub struct Console {
    pub rt: HostRuntime,
    pub failed: u8,
}

impl Console {
    // A console on which nothing has failed.
    pub fn new(rt: HostRuntime) -> Console
        ensures { result.failed ≡ 0 }
    {
        Console { rt, failed: 0 }
    }

    // Notes a failure, unless something had failed before.
    pub fn note_failure(&mut self, status: u8)
        ensures failed_after { self.new.failed ≡ first_of self.old.failed status }
        ensures failure_stays { FailureStays self.old.failed self.new.failed }
    {
        self.failed = first_of(self.failed, status);
    }

    // Writes to standard output. If that fails it is said, and 74 is noted.
    pub fn write_output(&mut self, text: &[u8])
        ensures { FailureStays self.old.failed self.new.failed }
    {
        if let Err(error) = self.rt.stdout().write_all(text) {
            say_why(self.rt, b"standard output", error);
            self.note_failure(FAILED);
        }
    }

    // Writes to standard error. If that fails 74 is noted: a sentence is part of the answer.
    pub fn say(&mut self, text: &[u8])
        ensures { FailureStays self.old.failed self.new.failed }
    {
        if self.rt.stderr().write_all(text).is_err() {
            self.note_failure(FAILED);
        }
    }
}

// Writes to standard error where a failure changes nothing: the status already says that the work is not done.
pub(crate) fn tell(rt: HostRuntime, text: &[u8]) {
    let _ = rt.stderr().write_all(text);
}

// Says what a program takes, and answers the status of wrong usage.
pub fn refuse(rt: HostRuntime, sentence: &[u8]) -> u8
    ensures { result ≡ 64 }
{
    tell(rt, sentence);
    WRONG_USAGE
}

// The same, with the program's name before it.
pub(crate) fn refuse_for(rt: HostRuntime, program: &[u8], sentence: &[u8]) -> u8
    ensures { result ≡ 64 }
{
    tell(rt, program);
    refuse(rt, sentence)
}

// The last thing that a program does. It may have been started by hand, without that descriptor: then nobody waits.
pub fn hand_over(status: u8) {
    let mut text = [0u8; LONGEST_STATUS];
    let mut out = Writer::new(&mut text);
    put_status(&mut out, status);
    let size = out.place();
    io::write_all(STATUS_FILENO, &text[..size]);
}
