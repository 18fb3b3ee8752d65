// The command kw: what it reads and writes. What it says, and its exit status, are decided by other crates. (FORMAT 14)
#![tactic(auto)]

mod asked;
mod memory;
mod mend;
mod report;
mod said;

use arguments::{Command, Files, Invocation, Misuse};
use asked::Argument;
use exit_status::FAILED;
use failure::Gone;
use std::process::ExitCode;

fn main(rt: HostRuntime) -> ExitCode {
    let count = asked::count(&rt);
    let invocation = asked::invocation(&rt, count);
    failure::exit_code(run(&rt, count, invocation))
}

fn run(rt: &HostRuntime, count: usize, invocation: Invocation) -> Result<u8, Gone> {
    if let Some(misuse) = invocation.misuse {
        return refuse(rt, misuse);
    }
    match (invocation.command, invocation.files) {
        (Some(Command::Help), _) => help(rt, invocation.topic),
        (Some(Command::Version), _) => version(rt),
        (Some(Command::Mend), Files::One(file)) => mend::mend(rt, file, invocation.output),
        (_, files) => report::report(rt, count, matches!(files, Files::Several(_))),
    }
}

// The argument at fault is not named where it is missing, or too long.
fn refuse(rt: &HostRuntime, misuse: Misuse) -> Result<u8, Gone> {
    let mut word = Argument::empty();
    if let Some(place) = misuse.place {
        let _ = word.read(rt, place);
    }
    let mut line = [0u8; 4352];
    let k = messages::fault(misuse.fault, word.as_bytes(), &mut line);
    said::say(rt, &line[..k])?;
    Ok(FAILED)
}

fn help(rt: &HostRuntime, topic: Option<Command>) -> Result<u8, Gone> {
    let mut text = [0u8; 4352];
    let k = messages::help(topic, &mut text);
    said::print(rt, &text[..k])
}

fn version(rt: &HostRuntime) -> Result<u8, Gone> {
    let mut text = [0u8; 4352];
    let k = messages::version(&mut text);
    said::print(rt, &text[..k])
}
