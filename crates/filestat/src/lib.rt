// What the system says of an open file. No contract can say what that is.
#![tactic(auto)]

use std::fs::{File, Metadata};
use std::os::unix::fs::MetadataExt;

// A file that the system says nothing of has mode 0, so that `about` can't fail: it is then no regular file, and is written to as it is.
#[derive(Clone, Copy)]
pub struct FileKind {
    pub mode: u32,
    pub owner: u32,
    pub group: u32,
}

fn unknown() -> FileKind {
    FileKind {
        mode: 0,
        owner: 0,
        group: 0,
    }
}

fn known(metadata: &Metadata) -> FileKind {
    FileKind {
        mode: metadata.mode(),
        owner: metadata.uid(),
        group: metadata.gid(),
    }
}

pub fn about(file: &File) -> FileKind {
    match file.metadata() {
        Ok(metadata) => known(&metadata),
        Err(_) => unknown(),
    }
}
