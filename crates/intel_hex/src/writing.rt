// The hex text of a byte string, put into a lent buffer. (FORMAT 15)
ghost use Rattle.std.specs.Prelude.{◌≡◌, ◌+◌, ◌-◌, ◌/◌, ◌%◌, ◌<◌, ◌≤◌, [], ◌∷◌, length, IfOk};
ghost use Rattle.model.specs.Programs.{lines};
ghost use Rattle.model.specs.Hex.{upper_lines, hex_text, hex_write};
ghost use Rattle.put.specs.Put.{Put};
ghost use Rattle.intel_hex.specs.Answers.{as_hex, answer_of, filled};
ghost use Rattle.intel_hex.specs.Steps.{text_length};

use crate::record::{RecordType, put_record};
use error::Refusal;
use layout::MAX_IMAGE_BYTES;

// The bytes of a line.
const LINE_BYTES: usize = 16;

// The bytes that have one upper half of the address.
const HALF: usize = 65536;

fn upper_half(address: usize) -> [u8; 2]
    requires { address < 4294967296 }
    ensures { result ≡ address / 65536 / 256 ∷ address / 65536 % 256 ∷ [] }
{
    ((address / HALF) as u16).to_be_bytes()
}

// The line that stands before each further 65,536 bytes.
fn put_upper(text: &mut [u8], at: usize, address: usize) -> usize
    requires room { at + length (lines (upper_lines address)) ≤ length text.old }
    requires low { address < 4294967296 }
    ensures { Put text.old at (lines (upper_lines address)) result text.new }
{
    if address == 0 {
        return at;
    }
    if address % HALF != 0 {
        return at;
    }
    put_record(text, at, 0, RecordType::Upper, &upper_half(address))
}

fn put_text(text: &mut [u8], bytes: &[u8]) -> usize
    requires room { length (hex_text bytes.now) ≤ length text.old }
    requires small { length bytes.now ≤ 8388608 }
    ensures { Put text.old 0 (hex_text bytes.now) result text.new }
{
    let mut next: usize = 0;
    for (i, line) in bytes.chunks(LINE_BYTES).enumerate() {
        let from = LINE_BYTES * i;
        let data = put_upper(text, next, from);
        next = put_record(text, data, (from % HALF) as u16, RecordType::Data, line);
    }
    put_record(text, next, 0, RecordType::End, b"")
}

// How often 65,536 bytes are followed by more.
fn further_halves(n: usize) -> usize
    ensures { result ≡ (n - 1) / 65536 }
{
    if n == 0 {
        return 0;
    }
    (n - 1) / HALF
}

fn text_length(n: usize) -> usize
    requires { n ≤ 8388608 }
    ensures { result ≡ text_length n }
{
    12 + 2 * n + 12 * ((n + 15) / LINE_BYTES) + 16 * further_halves(n)
}

// The text goes to the front of `text`, and the answer is its length; a refusal leaves every byte of `text` as it was.
pub fn write(bytes: &[u8], text: &mut [u8]) -> Result<usize, Refusal>
    ensures is { as_hex result ≡ answer_of (hex_write bytes.now (length text.old)) }
    ensures leaves { text.new ≡ filled (hex_write bytes.now (length text.old)) text.old }
    ensures fits { IfOk result (λ n. n ≤ length text.new) }
{
    if bytes.len() > MAX_IMAGE_BYTES {
        return Err(Refusal::TooLarge);
    }
    if text.len() < text_length(bytes.len()) {
        return Err(Refusal::NoRoom);
    }
    Ok(put_text(text, bytes))
}
