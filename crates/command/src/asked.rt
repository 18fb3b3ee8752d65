// The arguments, one by one.
ghost use Rattle.std.specs.Prelude.{◌≤◌, length};

use arguments::{Invocation, Word};
use failure::Gone;
use std::env::FillError;
use std::io::Error;
use std::rt::Env;

// The system's number for a name that is too long, ENAMETOOLONG.
const TOO_LONG: i32 = 36;

// The bytes of an argument, at the start of memory for the longest name. That is an array, and no Vec: no heap is needed to read the arguments,
// so that what is wrong with them is said also where the system gives no memory. It is read in place: handed on by value, it would be copied for each argument.
#[derive(Drop)]
pub(crate) struct Argument {
    memory: [u8; 4096],
    len: usize,
    ghost fits: { len ≤ length memory },
}

impl Argument {
    pub(crate) fn empty() -> Argument {
        Argument {
            memory: io::buffer(),
            len: 0,
        }
    }

    // Reads argument i. Where it does not fit, it is too long for any name, and the length stays.
    pub(crate) fn read(&mut self, rt: &HostRuntime, i: usize) -> Result<(), Error> {
        match rt.arg(i, &mut self.memory) {
            Ok(len) => {
                self.len = len;
                Ok(())
            }
            Err(_) => Err(Error::from_raw_os_error(TOO_LONG)),
        }
    }

    // Whether argument i could be read; where it is too long, that is said of `what`.
    pub(crate) fn told(&mut self, rt: &HostRuntime, i: usize, what: &[u8]) -> Result<bool, Gone> {
        match self.read(rt, i) {
            Ok(()) => Ok(true),
            Err(error) => {
                files::fail(rt, what, error)?;
                Ok(false)
            }
        }
    }

    pub(crate) fn as_bytes(&self) -> &[u8] {
        &self.memory[..self.len]
    }
}

// Three programs ask so, and each has its three lines: a public function needs a clause that a wrong body breaks, and none can say what the system gave.
fn is_given(rt: &HostRuntime, i: usize) -> bool {
    !matches!(rt.arg(i, &mut []), Err(FillError::NotPresent))
}

// How many arguments there are, the command's own name among them.
pub(crate) fn count(rt: &HostRuntime) -> usize {
    (0..usize::MAX).take_while(|i| is_given(rt, *i)).count()
}

// What argument i is. One that is longer than any name is taken for a name, which can't be opened.
pub(crate) fn word_at(rt: &HostRuntime, i: usize) -> Word {
    let mut argument = Argument::empty();
    match argument.read(rt, i) {
        Ok(()) => arguments::word(argument.as_bytes()),
        Err(_) => arguments::word(b""),
    }
}

pub(crate) fn invocation(rt: &HostRuntime, count: usize) -> Invocation {
    let mut invocation = arguments::start();
    for i in 1..count {
        invocation = arguments::step(invocation, i, word_at(rt, i));
    }
    arguments::finish(invocation)
}
