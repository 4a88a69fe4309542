// The name of a file, as it is printed, and a sentence about what it names.
ghost use Rattle.std.specs.Prelude.{◌≤◌, ◌+◌, ◌≡◌};
ghost use Rattle.text_writing.specs.Written.{Writes};
ghost use Rattle.console.specs.Failing.{FailureStays};
ghost use Rattle.console.specs.Names.{printed as Names·printed, printed_name, WritesName};

use crate::arguments::{LONGEST_WORD, argument, is_standard_input};
use crate::outputs::Console;
use text_writing::Writer;

#[tactic(auto, unfolding(crate::specs::Names::printed))]
fn printed(byte: u8) -> u8
    ensures { result ≡ Names·printed byte }
{
    if byte < 32 || byte == 127 {
        return b'?';
    }
    byte
}

// Puts a name as it is printed: control characters as `?`.
pub fn put_printed(out: &mut Writer, name: &[u8])
    ensures { Writes out.old (printed_name name.now) out.new }
{
    for &byte in name {
        out.put_byte(printed(byte));
    }
}

// Puts an argument as it is printed.
pub fn put_name(rt: HostRuntime, out: &mut Writer, index: usize)
    ensures writes_name { WritesName out.old out.new }
    ensures upper_bound { out.new.at ≤ out.old.at + 4096 }
{
    let mut word = [0u8; LONGEST_WORD];
    put_printed(out, argument(rt, index, &mut word));
}

// Puts what a sentence calls the input that an argument names.
pub fn put_input_name(rt: HostRuntime, out: &mut Writer, index: usize)
    ensures writes_name { WritesName out.old out.new }
    ensures upper_bound { out.new.at ≤ out.old.at + 4096 }
{
    if is_standard_input(rt, index) {
        put_printed(out, b"standard input");
    } else {
        put_name(rt, out, index);
    }
}

impl Console {
    // Says a sentence about what an argument names, with the name before it.
    pub fn say_of(&mut self, index: usize, sentence: &[u8])
        ensures { FailureStays self.old.failed self.new.failed }
    {
        let mut text = [0u8; LONGEST_WORD];
        let mut name = Writer::new(&mut text);
        put_input_name(self.rt, &mut name, index);
        let size = name.place();
        self.say(&text[..size]);
        self.say(b": ");
        self.say(sentence);
    }
}
