// A file that is written: beside the one that it replaces, synced and renamed over it.
use crate::links::{Name, resolve};
use crate::names::path;
use crate::{beside, open, print, told};
use failure::Gone;
use filestat::FileKind;
use std::fs::{File, OpenOptions, Permissions};
use std::io::{Error, ErrorKind, Write};
use std::os::unix::fs::{PermissionsExt, fchown};
use std::rt::Files;

// What a mode says of a file's kind, and a regular file's answer.
const KIND: u32 = 0o170_000;

const REGULAR: u32 = 0o100_000;

const PERMISSIONS: u32 = 0o7777;

fn is_regular(about: FileKind) -> bool {
    about.mode & KIND == REGULAR
}

// All that makes the new file what the old one was, with the image in it and on its disk. Only the system's administrator may give a file away.
fn fill(mut file: File, about: FileKind, image: &[u8]) -> Result<(), Error> {
    file.write_all(image)?;
    let _ = fchown(&file, Some(about.owner), Some(about.group));
    file.set_permissions(Permissions::from_mode(about.mode & PERMISSIONS))?;
    file.sync_all()
}

fn sync(rt: &HostRuntime, folder: &[u8]) {
    if let Ok(file) = open(rt, folder) {
        let _ = file.sync_all();
    }
}

fn sync_folder(rt: &HostRuntime, target: &[u8]) {
    let n = paths::folder_length(target);
    if n == 0 {
        sync(rt, b".");
    } else {
        sync(rt, &target[..n]);
    }
}

fn rename(rt: &HostRuntime, from: &[u8], to: &[u8]) -> Result<(), Error> {
    rt.rename(path(from)?, path(to)?)
}

fn remove(rt: &HostRuntime, name: &[u8]) -> Result<(), Error> {
    rt.remove_file(path(name)?)
}

// The file to replace, what the system says of it, and what its place is to hold.
#[derive(Clone, Copy)]
struct Replacing<'a> {
    target: &'a [u8],
    about: FileKind,
    image: &'a [u8],
}

fn fill_and_rename(
    rt: &HostRuntime,
    file: File,
    beside: &[u8],
    new: Replacing<'_>,
) -> Result<(), Error> {
    fill(file, new.about, new.image)?;
    rename(rt, beside, new.target)?;
    sync_folder(rt, new.target);
    Ok(())
}

// Leaves no file of its own where it fails.
fn replace_by(rt: &HostRuntime, beside: &mut [u8], new: Replacing<'_>) -> Result<(), Error> {
    let file = beside::create(rt, beside)?;
    let replaced = fill_and_rename(rt, file, beside, new);
    if replaced.is_err() {
        let _ = remove(rt, beside);
    }
    replaced
}

// Writes the image beside target and renames it over it.
fn replace(rt: &HostRuntime, new: Replacing<'_>) -> Result<(), Error> {
    let mut beside = [0u8; 8192];
    let n = paths::temporary(new.target, &mut beside);
    replace_by(rt, &mut beside[..n], new)
}

fn replace_resolved(
    rt: &HostRuntime,
    name: &[u8],
    about: FileKind,
    image: &[u8],
) -> Result<(), Error> {
    let mut target = Name::empty();
    resolve(rt, name, &mut target)?;
    let new = Replacing {
        target: target.as_bytes(),
        about,
        image,
    };
    replace(rt, new)
}

// A device or a pipe is written to, and not replaced.
fn save_open(rt: &HostRuntime, name: &[u8], mut file: File, image: &[u8]) -> Result<(), Error> {
    let about = filestat::about(&file);
    if !is_regular(about) {
        return file.write_all(image);
    }
    drop(file);
    replace_resolved(rt, name, about, image)
}

fn make(rt: &HostRuntime, target: &[u8]) -> Result<File, Error> {
    rt.open_file(
        OpenOptions::new().write(true).create_new(true),
        path(target)?,
    )
}

// A new file is made first, empty, as the system makes files for this user; where the image can't be written it goes again.
fn save_made(rt: &HostRuntime, name: &[u8], target: &[u8], image: &[u8]) -> Result<(), Error> {
    let file = make(rt, target)?;
    let saved = save_open(rt, name, file, image);
    if saved.is_err() {
        let _ = remove(rt, target);
    }
    saved
}

fn save_new(rt: &HostRuntime, name: &[u8], image: &[u8]) -> Result<(), Error> {
    let mut target = Name::empty();
    resolve(rt, name, &mut target)?;
    save_made(rt, name, target.as_bytes(), image)
}

fn open_append(rt: &HostRuntime, name: &[u8]) -> Result<File, Error> {
    rt.open_file(OpenOptions::new().append(true), path(name)?)
}

fn save_named(rt: &HostRuntime, name: &[u8], image: &[u8]) -> Result<(), Error> {
    match open_append(rt, name) {
        Ok(file) => save_open(rt, name, file, image),
        Err(error) if error.kind() == ErrorKind::NotFound => save_new(rt, name, image),
        Err(error) => Err(error),
    }
}

// Writes the image to the file of that name, or to standard output, and says why where it can't.
pub fn save(rt: &HostRuntime, name: &[u8], image: &[u8]) -> Result<bool, Gone> {
    if arguments::is_standard(name) {
        return print(rt, image);
    }
    told(rt, name, save_named(rt, name, image))
}
