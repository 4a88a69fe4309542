// A file that is written whole and at once, or not at all: one beside it is written, reaches the disk and takes its name. A
// symbolic link is followed, a file that is there keeps its mode, and sentences name the file as it was typed.
#![tactic(auto)]

ghost use Rattle.std.specs.Prelude.{◌≤◌, ◌≡◌, length, take};
ghost use Rattle.text_writing.specs.Counts.{IsPrefixLen};
ghost use Rattle.statuses.specs.Statuses.{first_of};
ghost use Rattle.console.specs.Failing.{FailureStays};

use console::{Console, Names, argument, is_standard_input, path_of, put_name, say_why};
use names::{folder_of, put_beside, put_target};
use statuses::{FAILED, first_of};
use std::fs;
use std::fs::{File, OpenOptions, Permissions};
use std::io::{Error, ErrorKind, Write};
use std::os::unix::fs::PermissionsExt;
use system::{Known, known_file};
use text_writing::Writer;

mod names; // names.rt: the file that a name leads to, and one beside it
mod system; // system.rt: what the system tells of a file

// Room for a name that the system takes.
const LONGEST_NAME: usize = 4096;

// Says why a call of the system failed, of the file that an argument names, and notes it.
fn fail(console: &mut Console, index: usize, error: Error)
    ensures { FailureStays console.old.failed console.new.failed }
{
    let mut room = [0u8; LONGEST_NAME];
    let mut shown = Writer::new(&mut room);
    put_name(console.rt, &mut shown, index);
    let size = shown.place();
    say_why(console.rt, &room[..size], error);
    console.note_failure(FAILED);
}

// The input that an argument names, which is standard input if that is `-` or missing.
fn known_input(rt: HostRuntime, index: usize) -> Option<Known> {
    if is_standard_input(rt, index) {
        return known_file(rt, b"/dev/stdin");
    }
    let mut word = [0u8; LONGEST_NAME];
    known_file(rt, argument(rt, index, &mut word))
}

// Whether the file that an argument names is the input that another one names, by whatever name or link.
pub fn is_same_file(rt: HostRuntime, after: usize, input: usize) -> bool {
    let mut word = [0u8; LONGEST_NAME];
    known_file(rt, argument(rt, after, &mut word)).is_some_and(|known| known.is(known_input(
        rt, input,
    )))
}

// To replace a device, a pipe or a folder would be to lose it; and so a file to which this program's own lines go.
fn is_replaceable(rt: HostRuntime, name: &[u8]) -> bool {
    known_file(rt, name).is_none_or(|known| {
        known.is_regular()
            && !known.is(known_file(rt, b"/dev/stdout"))
            && !known.is(known_file(rt, b"/dev/stderr"))
    })
}

// Opens a file that is there for reading and writing, and leaves its bytes as they are.
fn open_update(rt: HostRuntime, name: &[u8]) -> std::io::Result<File> {
    OpenOptions::new()
        .read(true)
        .write(true)
        .open(&rt, path_of(name)?)
}

// A name has to end in the name of a file. What is there may be written, or nothing is there.
fn test_open(rt: HostRuntime, name: &[u8]) -> std::io::Result<()> {
    match open_update(rt, name) {
        Ok(_) => Ok(()),
        Err(error) if error.kind() == ErrorKind::NotFound && folder_of(name).len() < name.len() => {
            Ok(())
        }
        Err(error) => Err(error),
    }
}

// Makes a file that was not there.
fn create(rt: HostRuntime, name: &[u8]) -> std::io::Result<File> {
    OpenOptions::new()
        .write(true)
        .create_new(true)
        .open(&rt, path_of(name)?)
}

// Removes a file; if that fails it stays.
fn remove(rt: HostRuntime, name: &[u8]) {
    if let Ok(path) = path_of(name) {
        let _ = fs::remove_file(&rt, path);
    }
}

// A file can be made in the folder.
fn test_folder(rt: HostRuntime, folder: &[u8]) -> std::io::Result<()> {
    let mut room = [0u8; LONGEST_NAME];
    let part = put_beside(rt, folder, &mut room);
    create(rt, part)?;
    remove(rt, part);
    Ok(())
}

fn open_folder(rt: HostRuntime, folder: &[u8]) -> std::io::Result<File> {
    if folder.is_empty() {
        return File::open(&rt, ".");
    }
    File::open(&rt, path_of(folder)?)
}

// Syncs a folder, so that a name in it reaches the disk. Not every file system can, and one that cannot says EINVAL.
fn sync_folder(rt: HostRuntime, folder: &[u8]) -> std::io::Result<()> {
    match open_folder(rt, folder)?.sync_all() {
        Err(error) if error.kind() == ErrorKind::InvalidInput => Ok(()),
        synced => synced,
    }
}

// The same; why it failed is said of the file that an argument names, and noted.
fn note_sync(console: &mut Console, index: usize, folder: &[u8])
    ensures { FailureStays console.old.failed console.new.failed }
{
    if let Err(error) = sync_folder(console.rt, folder) {
        fail(console, index, error);
    }
}

// A file of that name can be written, as far as its folder and what is there go.
fn test_file(rt: HostRuntime, name: &[u8]) -> std::io::Result<()> {
    test_open(rt, name)?;
    let folder = folder_of(name);
    test_folder(rt, folder)?;
    sync_folder(rt, folder)
}

// Tests whether the file that an argument names could be written, and says why not. So a long run does not begin in vain.
pub fn can_replace(console: &mut Console, index: usize)
    ensures { FailureStays console.old.failed console.new.failed }
{
    let mut room = [0u8; LONGEST_NAME];
    let name = put_target(console.rt, index, &mut room);
    if !is_replaceable(console.rt, name) {
        console.note_failure(FAILED);
        console.say_of(
            index,
            b"this is a folder, a device, a pipe or where the program's lines go, and no file to replace\n",
        );
        return;
    }
    if let Err(error) = test_file(console.rt, name) {
        fail(console, index, error);
    }
}

// Writes to a new file, gives it the mode of the one that it replaces, and sees to it that all of it reaches the disk. What is
// synced cannot be lost when the file is closed.
fn fill(mut file: File, replaced: Option<Known>, bytes: &[u8]) -> std::io::Result<()> {
    file.write_all(bytes)?;
    if let Some(known) = replaced {
        file.set_permissions(Permissions::from_mode(known.mode % 4096))?;
    }
    file.sync_all()
}

// Writes a new file, which takes the name.
fn fill_and_rename(
    rt: HostRuntime,
    file: File,
    part: &[u8],
    name: &[u8],
    bytes: &[u8],
) -> std::io::Result<()> {
    fill(file, known_file(rt, name), bytes)?;
    fs::rename(&rt, path_of(part)?, path_of(name)?)
}

// The new file takes the name; or why not is said, and it is removed.
fn replace_by(console: &mut Console, index: usize, part: &[u8], name: &[u8], bytes: &[u8])
    ensures { FailureStays console.old.failed console.new.failed }
{
    match create(console.rt, part) {
        Ok(file) => {
            if let Err(error) = fill_and_rename(console.rt, file, part, name, bytes) {
                fail(console, index, error);
                remove(console.rt, part);
            }
        }
        Err(error) => fail(console, index, error),
    }
}

// Writes a file of that name, or leaves what is there and says why. Nothing may have failed before. The failure goes into the
// console and not into a Result: so whoever calls this cannot promise a status without looking at it.
fn write_file(console: &mut Console, index: usize, name: &[u8], bytes: &[u8])
    requires { console.old.failed ≡ 0 }
    ensures { FailureStays console.old.failed console.new.failed }
{
    let folder = folder_of(name);
    let mut room = [0u8; LONGEST_NAME];
    let part = put_beside(console.rt, folder, &mut room);
    replace_by(console, index, part, name, bytes);
    if console.failed == 0 {
        note_sync(console, index, folder);
    }
}

// Reads an image into two buffers, and tests AFTER before anything is run.
pub fn read_and_test(
    console: &mut Console,
    names: Names,
    input: &mut [u8],
    copy: &mut [u8],
) -> usize
    requires { length input.old ≤ length copy.old }
    ensures prefix_len { IsPrefixLen result input.new }
    ensures copy_after { take result copy.new ≡ take result input.new }
    ensures prefix_len_2 { IsPrefixLen result copy.new }
    ensures failure_stays { FailureStays console.old.failed console.new.failed }
{
    let size = console.read_two(names.image, input, copy);
    if console.failed == 0 {
        can_replace(console, names.after);
    }
    size
}

// Says that the file that an argument names is left as it was, and answers the status of the work.
pub fn not_written(console: &mut Console, index: usize, status: u8) -> u8
    ensures value { result ≡ first_of console.new.failed status }
    ensures failure_stays { FailureStays console.old.failed console.new.failed }
{
    console.say_of(index, b"not written\n");
    first_of(console.failed, status)
}

// Writes that file, or says why not and that it is left as it was, and answers the status of the work. That is 0: no other is
// kept, and nothing may have failed before.
pub fn replace(console: &mut Console, index: usize, status: u8, bytes: &[u8]) -> u8
    requires status_value { status ≡ 0 }
    requires failed_value { console.old.failed ≡ 0 }
    ensures value { result ≡ first_of console.new.failed status }
    ensures failure_stays { FailureStays console.old.failed console.new.failed }
{
    let mut room = [0u8; LONGEST_NAME];
    let name = put_target(console.rt, index, &mut room);
    write_file(console, index, name, bytes);
    if console.failed != 0 {
        return not_written(console, index, status);
    }
    status
}
