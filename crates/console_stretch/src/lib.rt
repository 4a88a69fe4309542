// What the programs share that print a text of an image from a first to a last address: the arguments FIRST LAST [--] [IMAGE],
// the image that is read, the text that is delivered of it and written, what is said if it is refused, and the status.
#![tactic(auto)]

ghost use Rattle.std.specs.Prelude.{ℕ, ◌≡◌, ◌≤◌, List, length, take};
ghost use Rattle.statuses.specs.Statuses.{first_of};
ghost use Rattle.text_writing.specs.Delivered.{Delivered, numbers_of, with_buffer};
ghost use Rattle.console.specs.Failing.{FailureStays};

use console::{Console, Done, address_argument, name_from, refuse};
use console_ending::say_refused;
use laws::answers::{NOT_REFUSED, Refusal};
use memory::image_buffer;
use statuses::first_of;

// A text of the stretch of a memory from a first to a last address.
pub trait StretchText {
    // What it leaves in a buffer, with the refusals.
    ghost text_into: { List ℕ → ℕ → ℕ → List ℕ → Delivered };

    // Puts it into a buffer, and answers its length.
    fn deliver(memory: &[u8], first: u16, last: u16, text: &mut [u8]) -> Result<usize, Refusal>
        ensures text_after { with_buffer result text.new ≡ text_into memory.now first last text.old }
        ensures size_in_bounds { (numbers_of result).1 ≤ length text.old };
}

// What a program says of wrong arguments, and of a text that its buffer does not hold.
#[derive(Clone, Copy)]
pub struct Sentences<'a> {
    pub addresses: &'a [u8],
    pub image: &'a [u8],
    pub no_room: &'a [u8],
}

// What a refusal means: nothing was written then.
fn explain(console: &mut Console, index: usize, refusal: Refusal, image: &[u8], no_room: &[u8])
    ensures { FailureStays console.old.failed console.new.failed }
{
    match refusal {
        Refusal::MemoryNotFull => say_refused(console, index, image),
        Refusal::FirstAboveLast => {
            console.say_of(index, b"refused: the first address is above the last\n");
        }
        Refusal::NoRoom => console.say_of(index, no_room),
        _ => {}
    }
}

// Delivers the text of an image and writes it, or says why it is refused, and answers the status.
fn print_image<T: StretchText>(
    console: &mut Console,
    index: usize,
    first: u16,
    last: u16,
    no_room: &[u8],
    image: &[u8],
    text: &mut [u8],
) -> u8
    ensures value { result ≡ first_of console.new.failed (T.text_into image.now first last text.old).answer }
    ensures failure_stays { FailureStays console.old.failed console.new.failed }
{
    let answer = match T::deliver(image, first, last, text) {
        Ok(size) => {
            console.write_output(&text[..size]);
            NOT_REFUSED
        }
        Err(refusal) => {
            explain(console, index, refusal, image, no_room);
            u8::from(refusal)
        }
    };
    first_of(console.failed, answer)
}

// The same of the image that an argument names. The buffers are lent, so that the promise can name what was read.
pub fn print_input<T: StretchText>(
    console: &mut Console,
    index: usize,
    first: u16,
    last: u16,
    no_room: &[u8],
    input: &mut [u8],
    text: &mut [u8],
) -> Done
    ensures status_value { result.status ≡ first_of console.new.failed (T.text_into (take result.size input.new) first last text.old).answer }
    ensures failure_stays { FailureStays console.old.failed console.new.failed }
{
    let size = console.read_input(index, input);
    let status = if console.failed != 0 {
        console.failed
    } else {
        print_image::<T>(console, index, first, last, no_room, &input[..size], text)
    };
    Done { size, status }
}

// Prints the text that the arguments ask for, which is put into `text`, and answers the status.
pub fn print_by_arguments<T: StretchText>(
    rt: HostRuntime,
    sentences: Sentences,
    text: &mut [u8],
) -> u8 {
    let (Some(first), Some(last)) = (address_argument(rt, 1), address_argument(rt, 2)) else {
        return refuse(rt, sentences.addresses);
    };
    let Some(index) = name_from(rt, 3) else {
        return refuse(rt, sentences.image);
    };
    let mut input = image_buffer();
    let mut console = Console::new(rt);
    let done = print_input::<T>(
        &mut console,
        index,
        first,
        last,
        sentences.no_room,
        &mut input,
        text,
    );
    done.status
}
