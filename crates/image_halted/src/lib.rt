// A halted run in one file: the memory, and then the line of the state. So nobody goes on from a memory whose state is lost.
#![tactic(auto)]

ghost use Rattle.std.specs.Prelude.{◌+◌, ◌≤◌, ◌≡◌, length, take};
ghost use Rattle.text_writing.specs.Counts.{IsPrefixLen};
ghost use Rattle.manual.specs.Stepping.{full_memory};
ghost use Rattle.image_halted.specs.Halted.{halted_run, is_halted, start_of, memory_of, after_file};
ghost use Rattle.trace_line.specs.Lines.{longest_line};

use manual::{FULL_MEMORY, Machine};
use statuses::Goal;
use text_writing::Writer;
use trace_line::{put_line, read_state};

// What a file is: the state that its run goes on from, none if the image's own program begins it, and how many of its bytes are the
// memory.
#[derive(Clone, Copy)]
pub struct Opened {
    pub start: Option<Machine>,
    pub size: usize,
}

// Whether a file is a halted run.
pub fn is_halted(file: &[u8]) -> bool
    ensures { result ≡ is_halted file.now }
{
    matches!(read_state(file, FULL_MEMORY), Some(spelled) if spelled.next == file.len())
}

// Opens a file. One that is no halted run is all memory.
pub fn open(file: &[u8]) -> Opened
    ensures start_value { (result.start ≡ start_of file.now) × (take result.size file.now ≡ memory_of file.now) }
    ensures prefix_len { IsPrefixLen result.size file.now }
{
    match read_state(file, FULL_MEMORY) {
        Some(spelled) if spelled.next == file.len() => Opened {
            start: Some(spelled.machine),
            size: FULL_MEMORY,
        },
        _ => Opened {
            start: None,
            size: file.len(),
        },
    }
}

// Puts the line of the state after the memory that stands at the start of a buffer. The two have at most 65,577 bytes.
fn put_state(file: &mut [u8], machine: Machine) -> usize
    requires { full_memory + longest_line ≤ length file.old }
    ensures file_after { take result file.new ≡ halted_run machine (take full_memory file.old) }
    ensures prefix_len { IsPrefixLen result file.new }
{
    let mut out = Writer::from(file, FULL_MEMORY);
    put_line(&mut out, machine);
    out.place()
}

// Makes the file that a run leaves of the memory that stands at the start of a buffer, and answers its size.
pub fn put_after(file: &mut [u8], goal: Goal, machine: Machine) -> usize
    requires { full_memory + longest_line ≤ length file.old }
    ensures file_after { take result file.new ≡ after_file goal machine (take full_memory file.old) }
    ensures prefix_len { IsPrefixLen result file.new }
{
    match goal {
        Goal::Unnamed | Goal::At(_) => FULL_MEMORY,
        Goal::AllSteps => put_state(file, machine),
    }
}
