// Links, and the file that a name leads to through them.
ghost use Rattle.std.specs.Prelude.{◌≤◌, length};

use crate::names::{not_text, path};
use std::io::{Error, ErrorKind};
use std::rt::Files;

const MOST_LINKS: usize = 40;

// A name, at the start of memory for the longest. It is an array, and no Vec, since the public function `paths::followed` fills one, by its clauses.
// It is lent to those who change it: handed on by value, it would stand on the stack once more for each call.
#[derive(Drop)]
pub(crate) struct Name<const N: usize> {
    memory: [u8; N],
    len: usize,
    ghost fits: { len ≤ length memory },
}

impl<const N: usize> Name<N> {
    pub(crate) fn empty() -> Self {
        Name {
            memory: [0u8; N],
            len: 0,
        }
    }

    // Becomes this name, and empty where it does not fit.
    fn set(&mut self, name: &[u8]) {
        if name.len() > self.memory.len() {
            self.len = 0;
            return;
        }
        self.len = put::put_bytes(&mut self.memory, 0, name);
    }

    pub(crate) fn as_bytes(&self) -> &[u8] {
        &self.memory[..self.len]
    }
}

// Puts the text of the link of that name into `link`, which stays as it is where there is no link.
fn read_link(rt: &HostRuntime, name: &[u8], link: &mut Name<4096>) -> Result<(), Error> {
    match rt.read_link(rt.alloc(), path(name)?) {
        Ok(text) => {
            link.set(text.as_path().as_str().as_bytes());
            Ok(())
        }
        Err(error) if error.raw_os_error().is_some() => Ok(()),
        Err(error) if error.kind() == ErrorKind::InvalidFilename => Err(not_text()),
        Err(error) => Err(error),
    }
}

// `target` becomes the name that its link, with this text, leads to.
fn follow(target: &mut Name<8192>, link: &[u8]) {
    let mut next = [0u8; 8192];
    let len = paths::followed(target.as_bytes(), link, &mut next);
    target.set(&next[..len]);
}

// The file that a name leads to through links, put into `target`.
pub(crate) fn resolve(rt: &HostRuntime, name: &[u8], target: &mut Name<8192>) -> Result<(), Error> {
    target.set(name);
    for _ in 0..MOST_LINKS {
        let mut link = Name::empty();
        read_link(rt, target.as_bytes(), &mut link)?;
        if link.as_bytes().is_empty() {
            return Ok(());
        }
        follow(target, link.as_bytes());
    }
    Ok(())
}
