// Memory for an image.
use exit_status::FAILED;
use failure::Gone;
use layout::MAX_IMAGE_BYTES;
use std::alloc::{AllocError, Global};
use std::io::Error;

// One byte more than the longest image, so that a longer one shows.
pub(crate) const ROOM: usize = MAX_IMAGE_BYTES + 1;

// The system's number for memory that it does not give, ENOMEM.
const NO_MEMORY: i32 = 12;

pub(crate) fn room(alloc: Global) -> Result<Vec<u8>, AllocError> {
    vec![in alloc; 0u8; ROOM]
}

pub(crate) fn lacking(rt: &HostRuntime) -> Result<u8, Gone> {
    files::fail(rt, b"memory", Error::from_raw_os_error(NO_MEMORY))?;
    Ok(FAILED)
}
