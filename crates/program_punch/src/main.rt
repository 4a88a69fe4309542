// Prints an image from a first to a last address as a paper tape.
//
// run punch FIRST LAST [--] [IMAGE]
//
// An address is four capital hexadecimal digits. The image is a file of 65,536 bytes, or standard input if it is `-` or
// none is named. A record has 24 bytes, the last one 1 to 24, and CR LF stands after each. A tape that is refused is not
// begun; a sentence on standard error says why, with the image's name before it.
//
// Exit status: 0 the tape was written; 1 the image is not 65,536 bytes long; 9 FIRST is above LAST; 64 wrong usage, 66 the
// image cannot be opened, 74 reading or writing failed.
//
// What the tape says is promised by the crate tape_punching, and the status by console_stretch.
#![tactic(auto)]

ghost use Rattle.tape_punching.specs.Punching.{tape_into};

use console::hand_over;
use console_stretch::{Sentences, StretchText, print_by_arguments};
use laws::answers::Refusal;
use tape_paper::tape_buffer;
use tape_punching::punch;

struct Tape;

impl StretchText for Tape {
    ghost text_into = { tape_into };

    // Punches it.
    fn deliver(memory: &[u8], first: u16, last: u16, text: &mut [u8]) -> Result<usize, Refusal> {
        punch(memory, first, last, text)
    }
}

fn main(rt: HostRuntime) {
    let sentences = Sentences {
        addresses: b"punch: give two addresses, the first and the last, as four capital hexadecimal digits each\n",
        image: b"punch: after the two addresses comes one image; ./run punch --help\n",
        // The longest tape has 166,588 characters, so that there is always room.
        no_room: b"refused: that is more than 1048576 characters; punch it in parts\n",
    };
    hand_over(print_by_arguments::<Tape>(rt, sentences, &mut tape_buffer()));
}
