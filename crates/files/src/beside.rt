// A new file beside the one that it is to replace, readable by its owner alone.
use crate::names::path;
use std::fs::{File, OpenOptions};
use std::io::{Error, ErrorKind};
use std::os::unix::fs::OpenOptionsExt;
use std::random::RandomSource;
use std::rt::Files;

const LETTERS: &[u8; 62] = b"abcdefghijklmnopqrstuvwxyzABCDEFGHIJKLMNOPQRSTUVWXYZ0123456789";

// How many bytes at a name's end are replaced.
const CHANGING: usize = 6;

// How many names are tried where each is taken, and how far each is from the next.
const TRIES: u32 = 238_328;

const STEP: u64 = 7777;

const FILE_EXISTS: i32 = 17;

const INVALID_ARGUMENT: i32 = 22;

fn put_letters(place: &mut [u8], number: u64) {
    let mut left = number;
    for byte in place.iter_mut() {
        *byte = LETTERS[(left % 62) as usize];
        left /= 62;
    }
}

// Any number does, also where the system gives none.
fn any_number(rt: &HostRuntime) -> u64 {
    let mut bytes = [0u8; 8];
    let _ = rt.fill_bytes(&mut bytes);
    u64::from_le_bytes(bytes)
}

fn create_private(rt: &HostRuntime, name: &[u8]) -> Result<File, Error> {
    let mut how = OpenOptions::new();
    how.read(true).write(true).create_new(true).mode(0o600);
    rt.open_file(&how, path(name)?)
}

// Makes a file of that name, with other letters or digits as its last six bytes.
pub(crate) fn create(rt: &HostRuntime, name: &mut [u8]) -> Result<File, Error> {
    if name.len() < CHANGING {
        return Err(Error::from_raw_os_error(INVALID_ARGUMENT));
    }
    let place = name.len() - CHANGING;
    let mut number = any_number(rt);
    for _ in 0..TRIES {
        put_letters(&mut name[place..], number);
        match create_private(rt, name) {
            Err(error) if error.kind() == ErrorKind::AlreadyExists => {
                number = number.wrapping_add(STEP);
            }
            made => return made,
        }
    }
    Err(Error::from_raw_os_error(FILE_EXISTS))
}
