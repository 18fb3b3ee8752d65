// kw mend.
use crate::asked::Argument;
use crate::memory;
use exit_status::FAILED;
use failure::Gone;
use layout::MAX_IMAGE_BYTES;

// What is said of the image comes last: not before all of it is written.
fn mend_image(
    rt: &HostRuntime,
    name: &[u8],
    output: Option<&[u8]>,
    image: &mut [u8],
) -> Result<u8, Gone> {
    let outcome = findings::mend_within(image, MAX_IMAGE_BYTES);
    let in_place = output.is_none() && !arguments::is_standard(name);
    if exit_status::is_written(outcome, in_place) {
        if !files::save(rt, output.unwrap_or(name), image)? {
            return Ok(FAILED);
        }
    }
    let mut lines = [0u8; 128];
    let k = text::mend_report(outcome, &mut lines);
    crate::said::say(rt, &lines[..k])?;
    let verdict = exit_status::mending_verdict(outcome);
    crate::said::complain(rt, name, verdict)?;
    Ok(exit_status::status(verdict))
}

fn mend_read(
    rt: &HostRuntime,
    name: &[u8],
    output: Option<&[u8]>,
    image: &mut [u8],
) -> Result<u8, Gone> {
    let input = files::read(rt, name, image)?;
    if input.failure.is_some() {
        return Ok(FAILED);
    }
    let n = input.length;
    mend_image(rt, name, output, &mut image[..n])
}

fn mend_file(rt: &HostRuntime, name: &[u8], output: Option<&[u8]>) -> Result<u8, Gone> {
    match memory::room(rt.alloc()) {
        Ok(mut image) => mend_read(rt, name, output, image.as_mut_slice()),
        Err(_) => memory::lacking(rt),
    }
}

fn mend_into(rt: &HostRuntime, name: &[u8], output: usize) -> Result<u8, Gone> {
    let mut target = Argument::empty();
    if !target.told(rt, output, b"-o")? {
        return Ok(FAILED);
    }
    mend_file(rt, name, Some(target.as_bytes()))
}

fn mend_named(rt: &HostRuntime, name: &[u8], output: Option<usize>) -> Result<u8, Gone> {
    match output {
        Some(output) => mend_into(rt, name, output),
        None => mend_file(rt, name, None),
    }
}

// Mends the file that argument `file` names, into the one that argument `output` names, or in place where there is none.
pub(crate) fn mend(rt: &HostRuntime, file: usize, output: Option<usize>) -> Result<u8, Gone> {
    let mut name = Argument::empty();
    if !name.told(rt, file, b"FILE")? {
        return Ok(FAILED);
    }
    mend_named(rt, name.as_bytes(), output)
}
