// kw report.
use crate::asked::Argument;
use crate::memory;
use exit_status::FAILED;
use failure::Gone;
use layout::MAX_IMAGE_BYTES;

// `several` goes along here as the public function `text::file_report`, and its definition, take it.
fn report_image(rt: &HostRuntime, name: &[u8], image: &[u8], several: bool) -> Result<u8, Gone> {
    let found = findings::look(image, MAX_IMAGE_BYTES);
    let mut lines = [0u8; 8448];
    let k = text::file_report(name, several, found, &mut lines);
    let printed = crate::said::print(rt, &lines[..k])?;
    let verdict = exit_status::report_verdict(found);
    crate::said::complain(rt, name, verdict)?;
    Ok(exit_status::higher(printed, exit_status::status(verdict)))
}

fn report_file(rt: &HostRuntime, name: &[u8], image: &mut [u8], several: bool) -> Result<u8, Gone> {
    let input = files::read(rt, name, image)?;
    if input.failure.is_some() {
        return Ok(FAILED);
    }
    let n = input.length;
    report_image(rt, name, &image[..n], several)
}

fn report_argument(
    rt: &HostRuntime,
    i: usize,
    image: &mut [u8],
    several: bool,
) -> Result<u8, Gone> {
    let mut name = Argument::empty();
    if !name.told(rt, i, b"FILE")? {
        return Ok(FAILED);
    }
    report_file(rt, name.as_bytes(), image, several)
}

fn report_all(rt: &HostRuntime, image: &mut [u8], count: usize, several: bool) -> Result<u8, Gone> {
    let mut invocation = arguments::start();
    let mut status: u8 = 0;
    for i in 1..count {
        let word = crate::asked::word_at(rt, i);
        if arguments::reports_on(invocation, word) {
            let next = report_argument(rt, i, image, several)?;
            status = exit_status::higher(status, next);
        }
        invocation = arguments::step(invocation, i, word);
    }
    Ok(status)
}

pub(crate) fn report(rt: &HostRuntime, count: usize, several: bool) -> Result<u8, Gone> {
    match memory::room(rt.alloc()) {
        Ok(mut image) => report_all(rt, image.as_mut_slice(), count, several),
        Err(_) => memory::lacking(rt),
    }
}
