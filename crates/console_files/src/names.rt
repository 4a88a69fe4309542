// The names of files: the one that a symbolic link leads to, and one beside a file.
ghost use Rattle.std.specs.Prelude.{◌≤◌, length, IfSome};

use console::{argument, path_of};
use std::fs;
use std::random::RandomSource;
use text_writing::Writer;

// As many links as the system itself follows.
const LINKS: u64 = 40;

// The folder of a name: what stands before the name of the file, to the last slash.
pub(crate) fn folder_of(name: &[u8]) -> &[u8]
    ensures { length result.now ≤ length name.now }
{
    match name.iter().rposition(|&character| character == b'/') {
        Some(slash) => &name[..slash + 1],
        None => &[],
    }
}

// How much of a name stands before the text of a link: the folder in which the link lies, unless the text begins with a slash.
fn link_start(name: &[u8], text: &[u8]) -> usize {
    match text {
        [] | [b'/', ..] => 0,
        _ => folder_of(name).len(),
    }
}

// One step along a link, whose text is known, from the name that stands at the start of `name`: how long the name is after it.
// One that does not fit has no characters.
// A buffer and a size, and no String: the project has no heap. Only the system's own answer is on it.
fn step_to(name: &mut [u8], size: usize, text: &[u8]) -> usize
    requires { size ≤ length name.old }
    ensures { result ≤ length name.new }
{
    let start = link_start(&name[..size], text);
    let mut out = Writer::from(name, start);
    out.put_text(text);
    let end = out.place();
    if name.len() < end { 0 } else { end }
}

// The text of a link.
fn link_text(rt: HostRuntime, name: &[u8]) -> std::io::Result<String> {
    Ok(fs::read_link(&rt, path_of(name)?)?.into_string())
}

// One step along a link, if the name that stands at the start of `name` is one: how long the name is after it. The system says
// of another name that it is none. A link whose text cannot be had, because there is no memory for it or it is no UTF-8, leads
// to no name, which has no characters.
fn follow(rt: HostRuntime, name: &mut [u8], size: usize) -> Option<usize>
    requires { size ≤ length name.old }
    ensures { IfSome result (λ after. after ≤ length name.new) }
{
    match link_text(rt, &name[..size]) {
        Ok(text) => Some(step_to(name, size, text.as_bytes())),
        Err(error) if error.raw_os_error().is_some() => None,
        Err(_) => Some(0),
    }
}

// Puts the name of the file that an argument leads to into a buffer: empty if it is missing, empty or too long.
pub(crate) fn put_target(rt: HostRuntime, index: usize, name: &mut [u8]) -> &[u8]
    ensures { length result.now ≤ length name.old }
{
    let mut size = argument(rt, index, name).len();
    for _ in 0..LINKS {
        let Some(after) = follow(rt, name, size) else {
            break;
        };
        size = after;
    }
    &name[..size]
}

// Four bytes that no other process has, or zeros where the system has none to give.
fn random_bytes(rt: HostRuntime) -> [u8; 4] {
    let mut random = [0u8; 4];
    let _ = rt.fill_bytes(&mut random);
    random
}

// Puts the name of a file in a folder, which no other process takes, into a buffer: empty if it does not fit.
pub(crate) fn put_beside<'a>(rt: HostRuntime, folder: &[u8], name: &'a mut [u8]) -> &'a [u8]
    ensures { length result.now ≤ length name.old }
{
    let mut out = Writer::new(name);
    out.put_text(folder);
    out.put_text(b".part-");
    for byte in random_bytes(rt) {
        out.put_hex2(byte);
    }
    let end = out.place();
    name.get(..end).unwrap_or(&[])
}
