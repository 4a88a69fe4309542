// An input that an argument names. `-` is standard input, and so is an argument that is missing.
ghost use Rattle.std.specs.Prelude.{◌≤◌, ◌≡◌, ◌≢◌, IfNone, IfOk, length, take};
ghost use Rattle.std.specs.Io.{ReadsAtMost};
ghost use Rattle.text_writing.specs.Counts.{IsPrefixLen};
ghost use Rattle.console.specs.Failing.{FailureStays};

use crate::arguments::{LONGEST_WORD, argument, is_standard_input};
use crate::names::put_input_name;
use crate::outputs::Console;
use crate::reasons::say_why;
use statuses::{FAILED, NOT_OPENED};
use std::fs::File;
use std::io::{Read, Stdin};
use text_writing::Writer;

// How much of an input was read, and the status of what was done with it: a promise names what was read as the start, of this
// size, of the buffer that was lent, and a `Vec` of its own could fail for want of memory, which no status names.
#[derive(Clone, Copy)]
pub struct Done {
    pub size: usize,
    pub status: u8,
}

// An input that is open. An enum and no Box<dyn Read>: the project has no heap, and a dyn value may not be handed out.
#[derive(Drop)]
pub enum Input {
    Standard(Stdin),
    Named(File),
}

impl Input {
    // Reads what there is, as far as it fits: nothing more at the end.
    pub fn read(&mut self, buffer: &mut [u8]) -> std::io::Result<usize>
        ensures { ReadsAtMost result buffer.new }
    {
        match self {
            Input::Standard(stdin) => stdin.read(buffer),
            Input::Named(file) => file.read(buffer),
        }
    }
}

// The text of a name, as std takes it. A name that is no UTF-8 is refused in the system's own words.
pub fn path_of(name: &[u8]) -> std::io::Result<&str>
    ensures { IfOk result (λ path. path.now ≡ name.now) }
{
    match std::str::from_utf8(name) {
        Ok(path) => Ok(path),
        Err(_) => Err(std::io::Error::from_raw_os_error(NO_TEXT)),
    }
}

// The system's number for bytes that are no text (EILSEQ).
const NO_TEXT: i32 = 84;

fn open_path(rt: HostRuntime, name: &[u8]) -> std::io::Result<File> {
    File::open(&rt, path_of(name)?)
}

// Standard input stays open: it may be named again, and is at its end then.
pub fn close_input(input: Input) {
    drop(input);
}

impl Console {
    // Opens a file, which sentences call `shown`. If it cannot be opened 66 is noted, and there is none.
    fn open_file(&mut self, name: &[u8], shown: &[u8]) -> Option<Input>
        ensures failure_stays { FailureStays self.old.failed self.new.failed }
        ensures not_opened { IfNone result (self.new.failed ≢ 0) }
    {
        match open_path(self.rt, name) {
            Ok(file) => Some(Input::Named(file)),
            Err(error) => {
                say_why(self.rt, shown, error);
                self.note_failure(NOT_OPENED);
                None
            }
        }
    }

    // Opens the input that an argument names. If it cannot be opened 66 is noted, and there is none.
    pub fn open_input(&mut self, index: usize) -> Option<Input>
        ensures failure_stays { FailureStays self.old.failed self.new.failed }
        ensures not_opened { IfNone result (self.new.failed ≢ 0) }
    {
        if is_standard_input(self.rt, index) {
            return Some(Input::Standard(self.rt.stdin()));
        }
        let mut shown = [0u8; LONGEST_WORD];
        let mut out = Writer::new(&mut shown);
        put_input_name(self.rt, &mut out, index);
        let size = out.place();
        let mut word = [0u8; LONGEST_WORD];
        let name = argument(self.rt, index, &mut word);
        if name.is_empty() {
            self.note_failure(NOT_OPENED);
            self.say(b"the name of an input is empty or too long\n");
            return None;
        }
        self.open_file(name, &shown[..size])
    }

    // Reads until the buffer is full or the input ends. Each read takes as many bytes as come, so that no `for` counts them.
    fn read_from(&mut self, input: &mut Input, shown: &[u8], buffer: &mut [u8]) -> usize
        ensures prefix_len { IsPrefixLen result buffer.new }
        ensures failure_stays { FailureStays self.old.failed self.new.failed }
    {
        let mut size = 0;
        while size < buffer.len() {
            match input.read(&mut buffer[size..]) {
                Ok(0) => break,
                Ok(more) => size += more,
                Err(error) => {
                    say_why(self.rt, shown, error);
                    self.note_failure(FAILED);
                    return 0;
                }
            }
        }
        size
    }

    // Reads the input that an argument names, as far as it fits, and answers its size: whoever has to know whether it is longer
    // lends a byte more.
    pub fn read_input(&mut self, index: usize, buffer: &mut [u8]) -> usize
        ensures prefix_len { IsPrefixLen result buffer.new }
        ensures failure_stays { FailureStays self.old.failed self.new.failed }
    {
        let Some(mut input) = self.open_input(index) else {
            return 0;
        };
        let mut shown = [0u8; LONGEST_WORD];
        let mut out = Writer::new(&mut shown);
        put_input_name(self.rt, &mut out, index);
        let length = out.place();
        let size = self.read_from(&mut input, &shown[..length], buffer);
        close_input(input);
        size
    }

    // Reads the input that an argument names, and puts it into a second buffer too, for whoever works on it there and has to
    // know afterwards what was read. Two slices with a clause on their lengths: the callers' public functions ask for no more.
    pub fn read_two(&mut self, index: usize, input: &mut [u8], copy: &mut [u8]) -> usize
        requires { length input.old ≤ length copy.old }
        ensures prefix_len { IsPrefixLen result input.new }
        ensures copy_after { take result copy.new ≡ take result input.new }
        ensures prefix_len_2 { IsPrefixLen result copy.new }
        ensures failure_stays { FailureStays self.old.failed self.new.failed }
    {
        let size = self.read_input(index, input);
        copy[..size].copy_from_slice(&input[..size]);
        size
    }
}
