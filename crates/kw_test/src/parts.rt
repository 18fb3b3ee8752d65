// Places of regions, tables, records and pool parts; and the parts themselves. No slice can be handed to C, so of a part its length
// and checksum are.
ghost use Rattle.std.specs.Prelude.{◌≡◌, length};
ghost use Rattle.bits.specs.Bit.{num};
ghost use Rattle.layout.specs.Regions.{region_of};
ghost use Rattle.model.specs.Views.{part_of, part_in_lem, bytes_span, table_span, is_table, record_count, record_range, range_is_forward, pool_range};
ghost use Rattle.tables.specs.Answers.{as_span};
ghost use Rattle.kw_test.specs.Reader.{span_numbers, place_numbers, part_numbers, entry_at};

use super::reader::place_numbers;
use error::Refusal;
use layout::Region;
use tables::Place;

fn span_numbers(span: Result<Place, Refusal>) -> [u64; 3]
    ensures { result ≡ span_numbers (as_span span) }
{
    match span {
        Ok(part) => [0, part.start as u64, part.end as u64],
        Err(r) => [r.number() as u64, r.detail(), 0],
    }
}

pub(crate) fn part_numbers(part: &[u8]) -> [u64; 2]
    ensures { result ≡ part_numbers part.now }
{
    [part.len() as u64, crc::crc32(part) as u64]
}

// A region with this offset and length, 0 elsewhere: no place depends on its other fields.
fn region_of(word_offset: u32, word_length: u32) -> Region
    ensures { result ≡ region_of (entry_at word_offset word_length) }
{
    Region {
        kind: 0,
        flags: 0,
        word_offset,
        word_length,
        covers: 0,
    }
}

// {0, start, end}, or {number, detail, 0} of a refusal.
#[unsafe(no_mangle)]
pub extern "C" fn kwt_region_span(
    len: usize,
    word_offset: u32,
    word_length: u32,
    answer: &mut [u64; 3],
)
    ensures { answer.new ≡ span_numbers (bytes_span len (entry_at word_offset word_length)) }
{
    *answer = span_numbers(tables::region_span(len, region_of(word_offset, word_length)));
}

#[unsafe(no_mangle)]
pub extern "C" fn kwt_records_span(
    len: usize,
    word_offset: u32,
    word_length: u32,
    stride: usize,
    answer: &mut [u64; 3],
)
    ensures { answer.new ≡ span_numbers (table_span len (entry_at word_offset word_length) stride) }
{
    *answer = span_numbers(tables::records_span(len, region_of(word_offset, word_length), stride));
}

// {1, start, end}, or zeros for nothing.
#[unsafe(no_mangle)]
pub extern "C" fn kwt_record_place(len: usize, stride: usize, index: usize, answer: &mut [u64; 3])
    ensures { answer.new ≡ place_numbers (record_range len stride index) }
{
    *answer = place_numbers(tables::record_place(len, stride, index));
}

#[unsafe(no_mangle)]
pub extern "C" fn kwt_pool_place(len: usize, offset: u32, size: u32, answer: &mut [u64; 3])
    ensures { answer.new ≡ place_numbers (pool_range len offset size) }
{
    *answer = place_numbers(tables::pool_place(len, offset, size));
}

// A yes as 1.
#[unsafe(no_mangle)]
pub extern "C" fn kwt_is_table(bytes: &[u8], stride: usize) -> u32
    ensures { result ≡ num (is_table (length bytes.now) stride) }
{
    tables::is_table(bytes, stride) as u32
}

#[unsafe(no_mangle)]
pub extern "C" fn kwt_record_count(bytes: &[u8], stride: usize) -> usize
    ensures { result ≡ record_count (length bytes.now) stride }
{
    tables::record_count(bytes, stride)
}

#[unsafe(no_mangle)]
pub extern "C" fn kwt_range_is_forward(
    bytes: &[u8],
    stride: usize,
    at: usize,
    first: u32,
    count: u32,
) -> u32
    ensures { result ≡ num (range_is_forward (record_count (length bytes.now) stride) at first count) }
{
    tables::range_is_forward(bytes, stride, at, first, count) as u32
}

// {length, CRC-32} of a part.
#[unsafe(no_mangle)]
pub extern "C" fn kwt_region_bytes(
    bytes: &[u8],
    word_offset: u32,
    word_length: u32,
    answer: &mut [u64; 2],
)
    ensures { answer.new ≡ part_numbers (part_of bytes.now (bytes_span (length bytes.now) (entry_at word_offset word_length))) }
{
    let part = tables::region_bytes(bytes, region_of(word_offset, word_length));
    *answer = part_numbers(part);
}

#[unsafe(no_mangle)]
pub extern "C" fn kwt_records_bytes(
    bytes: &[u8],
    word_offset: u32,
    word_length: u32,
    stride: usize,
    answer: &mut [u64; 2],
)
    ensures { answer.new ≡ part_numbers (part_of bytes.now (table_span (length bytes.now) (entry_at word_offset word_length) stride)) }
{
    let part = tables::records_bytes(bytes, region_of(word_offset, word_length), stride);
    *answer = part_numbers(part);
}

#[unsafe(no_mangle)]
pub extern "C" fn kwt_record_bytes(bytes: &[u8], stride: usize, index: usize, answer: &mut [u64; 2])
    ensures { answer.new ≡ part_numbers (part_in_lem bytes.now (record_range (length bytes.now) stride index)) }
{
    let part = tables::record_bytes(bytes, stride, index);
    *answer = part_numbers(part);
}

#[unsafe(no_mangle)]
pub extern "C" fn kwt_pool_bytes(bytes: &[u8], offset: u32, size: u32, answer: &mut [u64; 2])
    ensures { answer.new ≡ part_numbers (part_in_lem bytes.now (pool_range (length bytes.now) offset size)) }
{
    let part = tables::pool_bytes(bytes, offset, size);
    *answer = part_numbers(part);
}
