// Prints a paper tape as Intel HEX, record for record.
//
// run hex [--] [TAPE]
//
// The tape is a file of fewer than 1,048,576 characters, or standard input if it is `-` or none is named. Each data record
// keeps its address and its data, CR LF stands after each record, and the end record is `:00000001FF`. A tape that is refused
// is not begun. A sentence on standard error says what was found, with the tape's name before it; of a bad tape, after how
// many good records and how many characters the first bad one begins.
//
// Exit status: 0 the whole tape is good, and its HEX is written; 5 a record is malformed or cut short, or a stray character
// stands there; 6 it has a wrong sum; 7 it goes past FFFF; 8 there is no end record, or it has a wrong number; 10 the tape is
// too long for this program, or its HEX; 64 wrong usage, 66 the tape cannot be opened, 74 reading or writing failed.
//
// What is written and what is said are promised by the crates tape_moving and tape_loading; the status is promised by console_tapes.
#![tactic(auto)]

use console::hand_over;
use console_tapes::move_by_arguments;
use tape_loading::Format;

fn main(rt: HostRuntime) {
    hand_over(move_by_arguments(
        rt,
        Format::Tape,
        b"hex: name one tape, or none for standard input; ./run hex --help\n",
    ));
}
