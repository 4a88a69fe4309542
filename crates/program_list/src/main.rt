// Prints a listing of an image from a first to a last address: each instruction with its address and bytes.
//
// run list FIRST LAST [--] [IMAGE]
//
// An address is four capital hexadecimal digits. The image is a file of 65,536 bytes, or standard input if it is `-` or
// none is named; after `--` its name may begin with `-`. A listing that is refused is not begun; a sentence on standard error
// says why, with the image's name before it.
//
// Exit status: 0 the listing was written; 1 the image is not 65,536 bytes long; 9 FIRST is above LAST; 10 the listing has
// more than 262,144 characters; 64 wrong usage, 66 the image cannot be opened, 74 reading or writing failed.
//
// What the listing and its answer are is promised by the crate listing, and the status by console_stretch.
#![tactic(auto)]

ghost use Rattle.listing.specs.Listing.{listing_into};

use console::hand_over;
use console_stretch::{Sentences, StretchText, print_by_arguments};
use laws::answers::Refusal;
use listing::list;

struct Listing;

impl StretchText for Listing {
    ghost text_into = { listing_into };

    // Lists it.
    fn deliver(memory: &[u8], first: u16, last: u16, text: &mut [u8]) -> Result<usize, Refusal> {
        list(memory, first, last, text)
    }
}

fn main(rt: HostRuntime) {
    // Room for the listing of 18,724 bytes and, if not all of them are lines of their own, of more.
    let mut text = [0; 262144];
    let sentences = Sentences {
        addresses: b"list: give two addresses, the first and the last, as four capital hexadecimal digits each\n",
        image: b"list: after the two addresses comes one image; ./run list --help\n",
        no_room: b"refused: that is more than 262144 characters; list it in parts\n",
    };
    hand_over(print_by_arguments::<Listing>(rt, sentences, &mut text));
}
