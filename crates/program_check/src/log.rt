// A log that is read part by part: each part is checked up to its last LF, and what stands after that is kept for the next.
ghost use Rattle.std.specs.Prelude.{◌≡◌, ◌+◌, ◌-◌, ◌≤◌, true, length, take, drop};
ghost use Rattle.std.proofs.lemmas.List.Edits.{sets};
ghost use Rattle.console.specs.Failing.{FailureStays};
ghost use Rattle.text_reading.specs.Numbers.{nowhere};
ghost use Rattle.text_writing.specs.Delivered.{answer_in};
ghost use Rattle.trace_checking.specs.Checking.{part_numbers};
ghost use Rattle.program_check.specs.Inner.Ahead.{most_held, part_end, another};
ghost use Rattle.program_check.specs.Inner.Turns.{part_in, added, Goes, More, Ends};

use console::{Console, Input, close_input, put_input_name, say_why, show_progress, wipe_progress};
use laws::answers::Refusal;
use manual::Machine;
use statuses::FAILED;
use text_writing::Writer;
use trace_checking::{Part, check_part, whole_lines};

// What the check shows so far: why the log is refused, if it is, the accepted entries and the last of them.
#[derive(Clone, Copy)]
pub(crate) struct Found {
    pub(crate) refusal: Option<Refusal>,
    pub(crate) lines: u64,
    pub(crate) last: Option<Machine>,
}

// What is shown before the first part.
const NOTHING: Found = Found {
    refusal: None,
    lines: 0,
    last: None,
};

// The same after a part, how much is kept for the next one, and whether there is one. A flag and no enum: the
// other two are promised whether there is a next part or not.
#[derive(Clone, Copy)]
struct Turn {
    found: Found,
    kept: usize,
    more: bool,
}

// Reads behind what was kept, and answers how much there is then: no more than before if the log has ended.
fn read_more(
    console: &mut Console,
    log: &mut Input,
    shown: &[u8],
    kept: usize,
    buffer: &mut [u8],
) -> usize
    requires { kept ≤ length buffer.old }
    ensures lower_bound { (kept ≤ result) × (result ≤ length buffer.new) }
    ensures buffer_unchanged { take kept buffer.new ≡ take kept buffer.old }
    ensures failure_stays { FailureStays console.old.failed console.new.failed }
{
    match log.read(&mut buffer[kept..]) {
        Ok(more) => kept + more,
        Err(error) => {
            say_why(console.rt, shown, error);
            console.note_failure(FAILED);
            kept
        }
    }
}

// The most characters after the last LF of a part that are held back for the next one.
const MOST_HELD: usize = 64;

// Where a part ends: after its last LF. At the end of the log it is all there is, and so it is if more than can be held back
// stands after that LF: no entry has as many characters (the theorems `joined` and `overlong` of trace_checking).
fn part_end(size: usize, whole: usize, ended: bool) -> usize
    requires { whole ≤ size }
    ensures value { result ≡ part_end ended size whole }
    ensures upper_bound { (result ≤ size) × (size - result ≤ most_held) }
{
    if ended || MOST_HELD < size - whole {
        return size;
    }
    whole
}

// Moves what stands between two places to the front.
fn keep_rest(buffer: &mut [u8], end: usize, size: usize) -> usize
    requires { (end ≤ size) × (size ≤ length buffer.old) }
    ensures buffer_after { buffer.new ≡ sets buffer.old 0 (take (size - end) (drop end buffer.old)) }
    ensures value { result ≡ size - end }
{
    buffer.copy_within(end..size, 0);
    size - end
}

// Whether another part is to be read.
fn goes_on(size: usize, whole: usize, ended: bool, refusal: Option<Refusal>) -> bool
    requires { whole ≤ size }
    ensures { result ≡ another ended size whole (answer_in refusal) }
{
    !ended && size - whole <= MOST_HELD && refusal.is_none()
}

// What a part shows, after so many entries.
fn tally(lines: u64, part: Part) -> Found
    ensures { lines + part.lines ≤ nowhere → part_in result ≡ added lines (part_numbers part) }
{
    Found {
        refusal: part.refusal,
        lines: lines.wrapping_add(part.lines as u64),
        last: part.last,
    }
}

// Checks what stands in the buffer up to `size`, of which so much was kept and the rest was read now.
fn check_read(
    found: Found,
    kept: usize,
    size: usize,
    ended: bool,
    buffer: &mut [u8],
    copy: &mut [u8],
) -> Turn
    requires { (kept ≤ size) × (size ≤ length buffer.old) }
    ensures goes { Goes found.lines found.last (take kept buffer.old) copy.old (take (size - kept) (drop kept buffer.old)) ended result (take result.kept buffer.new) copy.new }
    ensures kept_in_bounds { result.kept ≤ length buffer.new }
{
    let whole = whole_lines(&buffer[..size]);
    let end = part_end(size, whole, ended);
    let part = check_part(found.last, &buffer[..end], copy);
    let kept = keep_rest(buffer, end, size);
    let more = goes_on(size, whole, ended, part.refusal);
    let found = tally(found.lines, part);
    Turn { found, kept, more }
}

// Reads a part and checks it. If it cannot be read nothing more is checked.
fn check_some(
    console: &mut Console,
    log: &mut Input,
    shown: &[u8],
    found: Found,
    kept: usize,
    buffer: &mut [u8],
    copy: &mut [u8],
) -> Turn
    requires { kept ≤ length buffer.old }
    ensures kept_in_bounds { result.kept ≤ length buffer.new }
    ensures more { console.new.failed ≡ 0 → More found.lines found.last (take kept buffer.old) copy.old result (take result.kept buffer.new) copy.new }
    ensures failed_after { result.more ≡ true → console.new.failed ≡ 0 }
    ensures failure_stays { FailureStays console.old.failed console.new.failed }
{
    let size = read_more(console, log, shown, kept, buffer);
    if console.failed != 0 {
        return Turn {
            found,
            kept,
            more: false,
        };
    }
    check_read(found, kept, size, size == kept, buffer, copy)
}

fn tell_progress(rt: HostRuntime, lines: u64) {
    show_progress(rt, b"check", lines, b"lines");
}

// Reads the whole log and checks it, or stops at its first bad entry: there is a text, the one that was read, of which this is
// the check, whatever follows or if nothing does. The count of rounds ends the loop for the proof alone.
fn check_from(console: &mut Console, log: &mut Input, shown: &[u8], copy: &mut [u8]) -> Found
    ensures ends { console.new.failed ≡ 0 → Ends copy.old result copy.new }
    ensures failure_stays { FailureStays console.old.failed console.new.failed }
{
    let mut buffer = [0u8; 65536];
    let mut found = NOTHING;
    let mut kept: usize = 0;
    for _ in 0..u64::MAX {
        let turn = check_some(console, log, shown, found, kept, &mut buffer, copy);
        found = turn.found;
        kept = turn.kept;
        if !turn.more {
            return found;
        }
        tell_progress(console.rt, found.lines);
    }
    console.note_failure(FAILED);
    found
}

// Checks the log that an argument names.
pub(crate) fn check_log(console: &mut Console, index: usize, copy: &mut [u8]) -> Found
    ensures ends { console.new.failed ≡ 0 → Ends copy.old result copy.new }
    ensures failure_stays { FailureStays console.old.failed console.new.failed }
{
    match console.open_input(index) {
        None => NOTHING,
        Some(mut log) => {
            let mut name = [0u8; 4096];
            let mut out = Writer::new(&mut name);
            put_input_name(console.rt, &mut out, index);
            let size = out.place();
            let found = check_from(console, &mut log, &name[..size], copy);
            wipe_progress(console.rt);
            close_input(log);
            found
        }
    }
}
