// An invocation told by eight numbers, for callers who keep one so. (docs/DECISIONS.md)
ghost use Rattle.std.specs.Prelude.{◌≡◌};
ghost use Rattle.arguments.specs.Numbers as model;

use crate::invocation::{Fault, Files, Invocation, Misuse, Next, numbered};
use crate::words::Command;

// 0 stands for no command, no topic of help, no file, no output and no fault. A file and a fault are told by their places.
#[derive(Clone, Copy, PartialEq, Eq)]
pub struct Numbers {
    pub command: u8,
    pub topic: u8,
    pub files: u8,
    pub file: usize,
    pub output: usize,
    pub state: u8,
    pub fault: u8,
    pub place: usize,
}

// Any number past the last command's is the last one's, which takes no file either.
fn command(number: u8) -> Option<Command>
    ensures { result ≡ model.command_of number }
{
    match (number, Command::try_from(number)) {
        (0, _) => None,
        (_, Ok(command)) => Some(command),
        (_, Err(_)) => Some(Command::Version),
    }
}

fn files(number: u8, first: usize) -> Files
    ensures { result ≡ model.files_of number first }
{
    match number {
        0 => Files::None,
        1 => Files::One(first),
        _ => Files::Several(first),
    }
}

fn next(state: u8) -> Next
    ensures { result ≡ model.next_of state }
{
    match state {
        1 => Next::Output,
        2 => Next::Name,
        _ => Next::Any,
    }
}

fn misuse(fault: u8, place: usize) -> Option<Misuse>
    ensures { result ≡ model.misuse_of fault place }
{
    if fault == 0 {
        return None;
    }
    Some(Misuse {
        fault: Fault::from(fault),
        place: numbered(place),
    })
}

impl From<Numbers> for Invocation {
    ghost from_gives = { λ numbers invocation. invocation ≡ model.invocation_of numbers };

    fn from(numbers: Numbers) -> Invocation {
        Invocation {
            command: command(numbers.command),
            topic: command(numbers.topic),
            files: files(numbers.files, numbers.file),
            output: numbered(numbers.output),
            next: next(numbers.state),
            misuse: misuse(numbers.fault, numbers.place),
        }
    }
}
