// report: what an image on standard input is, in one or two lines. (FORMAT 11)
#![tactic(auto)]

use failure::Gone;
use std::env::FillError;
use std::io::Write;
use std::process::ExitCode;
use std::rt::Env;

// One byte more than the longest input that is looked at, so that a longer one shows.
const INPUT: usize = layout::MAX_INPUT_BYTES + 1;

fn main(rt: HostRuntime) -> ExitCode {
    failure::exit_code(run(&rt))
}

// The program scrub and the command have these lines too: a public function needs a clause that a wrong body breaks, and none can say what the system gave.
fn has_argument(rt: &HostRuntime) -> bool {
    !matches!(rt.arg(1, &mut []), Err(FillError::NotPresent))
}

// The status is 0 whatever the image is, and whatever fails.
fn run(rt: &HostRuntime) -> Result<u8, Gone> {
    if has_argument(rt) {
        failure::tell(&mut rt.stderr(), b"usage: report <IMAGE\n")?;
    } else {
        report(rt)?;
    }
    Ok(0)
}

fn report(rt: &HostRuntime) -> Result<(), Gone> {
    let mut buffer = [0u8; INPUT];
    let input = stdin::read_input(rt, &mut buffer);
    if let Some(error) = input.failure {
        return failure::say(&mut rt.stderr(), b"report: standard input", error);
    }
    let n = input.length;
    let mut out = [0u8; 128];
    let k = text::report(&buffer[..n], &mut out);
    match rt.stdout().write_all(&out[..k]) {
        Ok(()) => Ok(()),
        Err(error) => failure::say(&mut rt.stderr(), b"report: standard output", error),
    }
}
