// Standard input, for the programs, and any other reader, for the command. No contract can say what a call of the system reads; proved is that the function ends, that its count
// lies within the buffer, and that a reader whose bytes are known gives them in order, and to its end where the buffer has room.
#![tactic(auto)]

ghost use Rattle.std.specs.Prelude.{◌≡◌, ◌<◌, take, length, None};
ghost use Rattle.std.specs.Io.KnownBytes.{Consumes, IsAtEnd};
ghost use Rattle.io.specs.Counts.{IsPrefixLen};

use std::io::{Error, Read};

// The bytes read, from the start of the buffer on, and why a read failed before the input's end, if one did. The buffer is the caller's, since
// the programs have no heap, and the clauses of `read_from` speak of the bytes that it holds also where a read failed: no Result, whose Err has none.
#[derive(Drop)]
pub struct Input {
    pub length: usize,
    pub failure: Option<Error>,
}

// Reads until the buffer is full or the input ends, however many bytes each read brings. The loop is over `read`: std's `read_exact`
// and `take` say too little of what came before an error.
pub fn read_from<R: Read>(reader: &mut R, buffer: &mut [u8]) -> Input
    ensures fits { IsPrefixLen result.length buffer.new }
    ensures bytes { Consumes (R.remaining reader.old) (R.remaining reader.new) (take result.length buffer.new) }
    ensures whole { result.failure ≡ None → result.length < length buffer.new → IsAtEnd (R.remaining reader.new) }
{
    let mut n: usize = 0;
    while n < buffer.len() {
        match reader.read(&mut buffer[n..]) {
            Err(error) => {
                return Input {
                    length: n,
                    failure: Some(error),
                };
            }
            Ok(0) => {
                return Input {
                    length: n,
                    failure: None,
                };
            }
            Ok(more) => n += more,
        }
    }
    Input {
        length: n,
        failure: None,
    }
}

pub fn read_input(rt: &HostRuntime, buffer: &mut [u8]) -> Input
    ensures { IsPrefixLen result.length buffer.new }
{
    read_from(&mut rt.stdin(), buffer)
}
