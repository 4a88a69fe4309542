// Where the run of an image begins, and what a report of it is (specs/).
#![tactic(auto)]

ghost use Rattle.std.specs.Prelude.{◌≡◌};
ghost use Rattle.image_run.specs.Report.{start as Report·start, image_start};

use manual::{FULL_MEMORY, Machine};
use memory::{Address, address_from_bytes, read_address};
use registers::{Registers, Status};

// The machine that a program starts with.
fn start(counter: u16) -> Machine
    ensures { result ≡ Report·start counter }
{
    let status = Status::new(false, false, false, true, false, false);
    let registers = Registers::new(0x00, 0x00, 0x00, 0xFF, counter, status);
    Machine::new(registers, 0, true)
}

// The machine that an image starts with. One of another length is not looked at.
pub fn start_image(image: &[u8]) -> Machine
    ensures { result ≡ image_start image.now }
{
    let Some(memory) = image.as_array::<FULL_MEMORY>() else {
        return start(0);
    };
    let first = address_from_bytes(read_address(memory, Address(0xFFFC), Address(0xFFFD)));
    start(first.0)
}
