// What is said, to standard output and to standard error.
use exit_status::{FAILED, Verdict};
use failure::Gone;

// Writes to standard output, and answers a status.
pub(crate) fn print(rt: &HostRuntime, text: &[u8]) -> Result<u8, Gone> {
    if files::print(rt, text)? {
        return Ok(0);
    }
    Ok(FAILED)
}

pub(crate) fn say(rt: &HostRuntime, text: &[u8]) -> Result<(), Gone> {
    failure::tell(&mut rt.stderr(), text)
}

// Says in words why an image is refused, if it is.
pub(crate) fn complain(rt: &HostRuntime, name: &[u8], verdict: Verdict) -> Result<(), Gone> {
    let mut line = [0u8; 4352];
    let k = messages::refusal(name, verdict, &mut line);
    say(rt, &line[..k])
}
