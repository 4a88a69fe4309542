// The entry of a step that was made.
ghost use Rattle.std.specs.Prelude.{◌+◌, ◌≤◌, length};
ghost use Rattle.text_writing.specs.Written.{Writes};
ghost use Rattle.listing.specs.Lines.{longest_instruction};
ghost use Rattle.trace_text.specs.Entries.{step_line, entry_text, longest};

use crate::View;
use manual::Machine;
use text_writing::Writer;
use trace_line::put_line;

// For the lesson on timing: the instruction as the listing has it, the cycles, and the address that the step put out first.
fn put_timing(out: &mut Writer, instruction: &[u8], cycles: u64, first: u16)
    ensures wrote { Writes out.old (step_line instruction.now cycles first) out.new }
    ensures upper_bound { out.new.at ≤ out.old.at + (length instruction.now + 27) }
{
    out.put_text(instruction);
    out.put_spaced_decimal(cycles);
    out.put_spaced_hex4(first);
    out.put_byte(b'\n');
}

// Writes the entry of a step that left `machine`.
pub fn put_entry(
    out: &mut Writer,
    view: View,
    instruction: &[u8],
    cycles: u64,
    first: u16,
    machine: Machine,
)
    requires { length instruction.now ≤ longest_instruction }
    ensures wrote { Writes out.old (entry_text view instruction.now cycles first machine) out.new }
    ensures upper_bound { out.new.at ≤ out.old.at + longest view }
{
    match view {
        View::States => put_line(out, machine),
        View::Steps => put_timing(out, instruction, cycles, first),
    }
}
