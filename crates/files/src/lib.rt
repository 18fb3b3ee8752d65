// Files that the command reads, replaces and prints to. No contract can say what a call of the system reads or writes; proved is that the functions end and are safe, and that
// a count lies within its buffer. (FORMAT 14)
#![tactic(auto)]

mod beside;
mod links;
mod names;
mod saving;

ghost use Rattle.std.specs.Prelude.{IfOk};
ghost use Rattle.io.specs.Counts.{IsPrefixLen};

use failure::Gone;
use names::path;
pub use saving::save;
use std::fs::{File, OpenOptions};
use std::io::{Error, Read, Write};
use std::rt::Files;
use stdin::Input;

// Says why the system failed at a file.
pub fn fail(rt: &HostRuntime, name: &[u8], error: Error) -> Result<(), Gone> {
    let mut text = [0u8; 4352];
    let k = paths::subject(name, &mut text);
    failure::say(&mut rt.stderr(), &text[..k], error)
}

// Whether that went well, and why not, said. The public functions `print` and `save` answer this bool, so here it is no Result in a Result.
pub(crate) fn told(rt: &HostRuntime, name: &[u8], done: Result<(), Error>) -> Result<bool, Gone> {
    match done {
        Ok(()) => Ok(true),
        Err(error) => {
            fail(rt, name, error)?;
            Ok(false)
        }
    }
}

// Writes to standard output, and says why where it can't.
pub fn print(rt: &HostRuntime, text: &[u8]) -> Result<bool, Gone> {
    told(rt, b"standard output", rt.stdout().write_all(text))
}

// The image's memory is lent, and used again for the next file, so what is read is a length in it: the clause of the public function `read` says so.
fn read_open<R: Read>(
    rt: &HostRuntime,
    file: &mut R,
    name: &[u8],
    image: &mut [u8],
) -> Result<Input, Gone>
    ensures { IfOk result (λ input. IsPrefixLen input.length image.new) }
{
    let input = stdin::read_from(file, image);
    if let Some(error) = input.failure {
        fail(rt, name, error)?;
    }
    Ok(input)
}

// Here and in the other files the handle's own methods are called. The functions of std::fs take any handle, so a proof with
// them rests on the contracts of all that a handle can ask of the system.
fn open(rt: &HostRuntime, name: &[u8]) -> Result<File, Error> {
    rt.open_file(OpenOptions::new().read(true), path(name)?)
}

fn read_named(rt: &HostRuntime, name: &[u8], image: &mut [u8]) -> Result<Input, Gone>
    ensures { IfOk result (λ input. IsPrefixLen input.length image.new) }
{
    match open(rt, name) {
        Ok(mut file) => read_open(rt, &mut file, name, image),
        Err(error) => {
            fail(rt, name, error)?;
            Ok(Input {
                length: 0,
                failure: Some(error),
            })
        }
    }
}

// Reads a file, or standard input, and says why where it can't.
pub fn read(rt: &HostRuntime, name: &[u8], image: &mut [u8]) -> Result<Input, Gone>
    ensures { IfOk result (λ input. IsPrefixLen input.length image.new) }
{
    if arguments::is_standard(name) {
        return read_open(rt, &mut rt.stdin(), name, image);
    }
    read_named(rt, name, image)
}
