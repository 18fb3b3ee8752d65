// Why the system failed, said in its own words, and how a program ends whose reader is gone.
#![tactic(auto)]

ghost use Rattle.std.specs.Prelude.{◌≡◌, ◌↔◌, IsErr, MatchResult};
ghost use Rattle.std.specs.Io.KnownBytes.{Keeps};
ghost use Rattle.std.specs.IoError.{error_kind};
ghost use Rattle.std.specs.Process.{exit_status};

use std::fmt::InlineText;
use std::io::{Error, ErrorKind, Write};
use std::process::ExitCode;

// The reader of what was written is gone. A program then says and does nothing more.
#[derive(Clone, Copy)]
pub struct Gone;

// The status that a shell shows of a program that SIGPIPE ended. The signal itself is ignored from the start of every program.
const ENDED_BY_SIGPIPE: u8 = 141;

// Longer than any reason of the system's.
const LONGEST_REASON: usize = 256;

pub fn exit_code(ended: Result<u8, Gone>) -> ExitCode
    ensures { MatchResult ended (λ status. exit_status result ≡ status) (λ _. exit_status result ≡ 141) }
{
    match ended {
        Ok(status) => ExitCode::from(status),
        Err(_) => ExitCode::from(ENDED_BY_SIGPIPE),
    }
}

fn stay(error: Error) -> Result<(), Gone>
    ensures { IsErr result ↔ (error_kind error ≡ ErrorKind.BrokenPipe) }
{
    if error.kind() == ErrorKind::BrokenPipe {
        return Err(Gone);
    }
    Ok(())
}

// Writes what is said beside a program's answer. What can't be written is lost.
pub fn tell<W: Write>(to: &mut W, words: &[u8]) -> Result<(), Gone> {
    match to.write_all(words) {
        Ok(()) => Ok(()),
        Err(error) => stay(error),
    }
}

// std puts the system's number behind the system's words.
fn without_number(reason: &str) -> &str {
    match reason.rsplit_once(" (os error ") {
        Some((words, _)) => words,
        None => reason,
    }
}

// A line: what failed, and why. Nothing is said where the failure is that a reader is gone.
pub fn say<W: Write>(to: &mut W, subject: &[u8], error: Error) -> Result<(), Gone>
    ensures gone { error_kind error ≡ ErrorKind.BrokenPipe → IsErr result }
    ensures silent { error_kind error ≡ ErrorKind.BrokenPipe → Keeps (W.contents to.old) (W.contents to.new) }
{
    stay(error)?;
    let reason = InlineText::<LONGEST_REASON>::of(error);
    tell(to, subject)?;
    tell(to, b": ")?;
    tell(to, without_number(reason.as_str()).as_bytes())?;
    tell(to, b"\n")
}
