// A line of a hex text, put into a lent buffer. (FORMAT 15)
ghost use Rattle.std.specs.Prelude.{◌≡◌, ◌+◌, ◌*◌, ◌/◌, ◌%◌, ◌<◌, ◌≤◌, [], ◌∷◌, ◌++◌, length};
ghost use Rattle.model.specs.Hex.{digit_of, pairs_of, total, sum_byte, record_line};
ghost use Rattle.put.specs.Put.{Put};
ghost use Rattle.intel_hex.specs.Steps.{type_of};

// What a line holds: bytes, nothing any more, or the upper half of the addresses behind it.
#[derive(Clone, Copy)]
pub(crate) enum RecordType {
    Data = 0,
    End = 1,
    Upper = 4,
}

// A digit's character, in upper case. `char::from_digit` answers an `Option` of the lower case, to be unwrapped, raised and cast: no plainer.
fn digit(d: u8) -> u8
    requires { d < 16 }
    ensures { result ≡ digit_of d }
{
    if d < 10 { b'0' + d } else { b'A' + (d - 10) }
}

// Bytes in pairs of digits.
fn put_pairs(text: &mut [u8], at: usize, bytes: &[u8]) -> usize
    requires { at + 2 * length bytes.now ≤ length text.old }
    ensures { Put text.old at (pairs_of bytes.now) result text.new }
{
    for (i, byte) in bytes.iter().enumerate() {
        text[at + 2 * i] = digit(byte / 16);
        text[at + 2 * i + 1] = digit(byte % 16);
    }
    at + 2 * bytes.len()
}

// The sum of bytes, without what passes 255.
fn low_total(bytes: &[u8]) -> u8
    ensures { result ≡ total bytes.now % 256 }
{
    bytes
        .iter()
        .fold(0, |sum: u8, byte| sum.wrapping_add(*byte))
}

// What stands before a record's data.
fn head(count: u8, address: u16, kind: RecordType) -> [u8; 4]
    ensures { result ≡ count ∷ address / 256 ∷ address % 256 ∷ type_of kind ∷ [] }
{
    let [high, low] = address.to_be_bytes();
    [count, high, low, kind as u8]
}

fn sum_byte(head: &[u8; 4], bytes: &[u8]) -> [u8; 1]
    ensures { result ≡ sum_byte (head.now ++ bytes.now) ∷ [] }
{
    let sum = low_total(head).wrapping_add(low_total(bytes));
    [0u8.wrapping_sub(sum)]
}

// A line with its line feed.
pub(crate) fn put_record(
    text: &mut [u8],
    at: usize,
    address: u16,
    kind: RecordType,
    bytes: &[u8],
) -> usize
    requires room { at + 12 + 2 * length bytes.now ≤ length text.old }
    requires short { length bytes.now ≤ 255 }
    ensures { Put text.old at (record_line address (type_of kind) bytes.now ++ (10 ∷ [])) result text.new }
{
    let head = head(bytes.len() as u8, address, kind);
    let sum = sum_byte(&head, bytes);
    text[at] = b':';
    let data = put_pairs(text, at + 1, &head);
    let tail = put_pairs(text, data, bytes);
    let end = put_pairs(text, tail, &sum);
    text[end] = b'\n';
    end + 1
}
