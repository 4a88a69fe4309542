// What the system tells of a file.
use console::path_of;
use std::fs;
use std::os::unix::fs::MetadataExt;

// The bits of a mode that say what kind of file it is, and those of a file of bytes.
const KIND: u32 = 0o170000;

const REGULAR: u32 = 0o100000;

// Which file it is, by the numbers that the system gives it.
#[derive(Clone, Copy, PartialEq, Eq)]
struct Identity {
    device: u64,
    inode: u64,
}

// A file that is there, and its mode.
#[derive(Clone, Copy)]
pub(crate) struct Known {
    identity: Identity,
    pub(crate) mode: u32,
}

impl Known {
    // Whether it is a file of bytes, and no folder, device or pipe.
    pub(crate) fn is_regular(self) -> bool {
        self.mode & KIND == REGULAR
    }

    // Whether it is another file that is there, by whatever name.
    pub(crate) fn is(self, other: Option<Known>) -> bool {
        other.is_some_and(|other| self.identity == other.identity)
    }
}

// Asks for the file at a path, through links.
fn look(rt: HostRuntime, name: &[u8]) -> std::io::Result<Known> {
    let metadata = fs::metadata(&rt, path_of(name)?)?;
    Ok(Known {
        identity: Identity {
            device: metadata.dev(),
            inode: metadata.ino(),
        },
        mode: metadata.mode(),
    })
}

// The file that a name leads to. A name that the system does not take leads to none.
pub(crate) fn known_file(rt: HostRuntime, name: &[u8]) -> Option<Known> {
    look(rt, name).ok()
}
