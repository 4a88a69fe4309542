// Prints Intel HEX as a paper tape, record for record.
//
// run tape [--] [HEX]
//
// HEX is a file of fewer than 1,048,576 characters, or standard input if it is `-` or none is named. It has records of the
// types 00 and 01 alone, in capital digits. Each data record keeps its address and its data, CR LF stands after each record,
// and the end record counts them. HEX that is refused is not begun. A sentence on standard error says what was found, with
// the file's name before it; of a bad one, after how many good records and how many characters the first bad one begins.
//
// Exit status: 0 all of it is good, and the tape is written; 5 a record is malformed, cut short, without data or of another
// type, an end record has another spelling, or a stray character stands there; 6 it has a wrong sum; 7 it goes past FFFF;
// 8 there is no end record, or there are more than 65,535 data records; 10 it is too long for this program, or its tape;
// 64 wrong usage, 66 it cannot be opened, 74 reading or writing failed.
//
// What is written and what is said are promised by the crates tape_moving and tape_loading; the status is promised by console_tapes.
#![tactic(auto)]

use console::hand_over;
use console_tapes::move_by_arguments;
use tape_loading::Format;

fn main(rt: HostRuntime) {
    hand_over(move_by_arguments(
        rt,
        Format::Hex,
        b"tape: name one file of Intel HEX, or none for standard input; ./run tape --help\n",
    ));
}
