// Why the system refused something, in its own words.
ghost use Rattle.std.specs.Prelude.{◌≤◌};

use crate::outputs::tell;
use std::io::Write;

// Room for an error as std prints it: the system's words, and a number after them.
const LONGEST_REASON: usize = 256;

// The words of an error as std prints it, before the number that it puts after those of the system.
fn words_of(text: &[u8]) -> &[u8] {
    match std::str::from_utf8(text) {
        Ok(printed) => match printed.split_once(" (os error ") {
            Some((words, _)) => words.as_bytes(),
            None => text,
        },
        Err(_) => text,
    }
}

// Puts an error as std prints it, and answers its length.
fn put_error(out: &mut [u8; LONGEST_REASON], error: std::io::Error) -> usize
    ensures { result ≤ 256 }
{
    let mut rest = &mut out[..];
    let _ = write!(rest, "{error}");
    let left = rest.len();
    LONGEST_REASON.saturating_sub(left)
}

// Says why something failed that sentences call `shown`. A failure here changes nothing: the one that is told is noted.
pub fn say_why(rt: HostRuntime, shown: &[u8], error: std::io::Error) {
    let mut text = [0u8; LONGEST_REASON];
    let size = put_error(&mut text, error);
    tell(rt, shown);
    tell(rt, b": ");
    tell(rt, words_of(&text[..size]));
    tell(rt, b"\n");
}
