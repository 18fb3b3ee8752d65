// Names as std takes them, which are text.
use std::io::Error;
use std::str;

// The system's number for bytes that are no text, EILSEQ.
const NOT_TEXT: i32 = 84;

pub(crate) fn not_text() -> Error {
    Error::from_raw_os_error(NOT_TEXT)
}

// A name that is not UTF-8 names no file that std can open.
pub(crate) fn path(name: &[u8]) -> Result<&str, Error> {
    match str::from_utf8(name) {
        Ok(text) => Ok(text),
        Err(_) => Err(not_text()),
    }
}
