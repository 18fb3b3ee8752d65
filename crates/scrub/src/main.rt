// scrub: the image on standard input, mended, to standard output, and how many bytes changed to standard error. (FORMAT 11)
#![tactic(auto)]

use failure::Gone;
use std::env::FillError;
use std::io::Write;
use std::process::ExitCode;
use std::rt::Env;

// One byte more than the longest input that is mended, so that a longer one shows.
const INPUT: usize = layout::MAX_INPUT_BYTES + 1;

fn main(rt: HostRuntime) -> ExitCode {
    failure::exit_code(run(&rt))
}

// The program report and the command have these lines too: a public function needs a clause that a wrong body breaks, and none can say what the system gave.
fn has_argument(rt: &HostRuntime) -> bool {
    !matches!(rt.arg(1, &mut []), Err(FillError::NotPresent))
}

// The status is 0 whatever the image is, and whatever fails.
fn run(rt: &HostRuntime) -> Result<u8, Gone> {
    if has_argument(rt) {
        failure::tell(&mut rt.stderr(), b"usage: scrub <IMAGE >MENDED\n")?;
    } else {
        read_and_scrub(rt)?;
    }
    Ok(0)
}

fn read_and_scrub(rt: &HostRuntime) -> Result<(), Gone> {
    let mut buffer = [0u8; INPUT];
    let input = stdin::read_input(rt, &mut buffer);
    if let Some(error) = input.failure {
        return failure::say(&mut rt.stderr(), b"scrub: standard input", error);
    }
    let n = input.length;
    scrub(rt, &mut buffer[..n])
}

// The line comes last: it is not said before all of the image is written.
fn scrub(rt: &HostRuntime, image: &mut [u8]) -> Result<(), Gone> {
    let mut line = [0u8; 128];
    let printed = text::scrub(image, &mut line);
    let n = printed.image;
    let k = printed.line;
    match rt.stdout().write_all(&image[..n]) {
        Ok(()) => failure::tell(&mut rt.stderr(), &line[..k]),
        Err(error) => failure::say(&mut rt.stderr(), b"scrub: standard output", error),
    }
}
