// Parts of an image, record tables and pools, after view.rs: plain functions on slices and numbers. The structs that hold bytes and
// stride, with these as methods, are those of the crate borrowed. Where there is no such part, `VeryPartOf` and `VeryPartIn` promise
// the empty slice at the bytes' front, and so nobody has to take an Option apart to read nothing. (FORMAT 6)
#![tactic(auto)]

ghost use Rattle.std.specs.Prelude.{◌≡◌, ◌≤◌, length, IfSome};
ghost use Rattle.model.specs.Views.{bytes_span, table_span, is_table, record_count, record_range, range_is_forward, pool_range};
ghost use Rattle.layout.specs.Regions.{as_entry};
ghost use Rattle.tables.specs.Answers.{as_span, as_place};
ghost use Rattle.tables.specs.Parts.{VeryPartOf, VeryPartIn};

use error::Refusal;
use layout::Region;

// Where a part of the bytes starts, and the byte past its last. No range of std, which is no Copy.
#[derive(Clone, Copy, Debug, PartialEq, Eq)]
pub struct Place {
    pub start: usize,
    pub end: usize,
}

// The very bytes of a place; where there is none, the empty slice at their front.
fn part_at(bytes: &[u8], place: Option<Place>) -> &[u8]
    requires { IfSome place (λ r. (r.start ≤ r.end) × (r.end ≤ length bytes.now)) }
    ensures { VeryPartIn bytes.entry result (as_place place) }
{
    match place {
        Some(part) => &bytes[part.start..part.end],
        None => &bytes[..0],
    }
}

// A region's place in an image of len bytes.
pub fn region_span(len: usize, region: Region) -> Result<Place, Refusal>
    ensures { as_span result ≡ bytes_span len (as_entry region) }
{
    let end = region.byte_end();
    if len < end {
        return Err(Refusal::RegionOutOfBounds { index: 0 });
    }
    Ok(Place {
        start: region.byte_offset(),
        end,
    })
}

// The very bytes of a region; none if refused.
pub fn region_bytes(bytes: &[u8], region: Region) -> &[u8]
    ensures { VeryPartOf bytes.entry result (bytes_span (length bytes.now) (as_entry region)) }
{
    part_at(bytes, region_span(bytes.len(), region).ok())
}

// Where the bytes of a region start and end that is a table of records of stride bytes, or why it is no such table.
pub fn records_span(len: usize, region: Region, stride: usize) -> Result<Place, Refusal>
    ensures { as_span result ≡ table_span len (as_entry region) stride }
{
    if stride == 0 {
        return Err(Refusal::BadRecordStride);
    }
    if stride % 8 != 0 {
        return Err(Refusal::BadRecordStride);
    }
    let end = region.byte_end();
    if len < end {
        return Err(Refusal::RegionOutOfBounds { index: 0 });
    }
    if region.byte_length() % stride != 0 {
        return Err(Refusal::BadRecordStride);
    }
    Ok(Place {
        start: region.byte_offset(),
        end,
    })
}

pub fn records_bytes(bytes: &[u8], region: Region, stride: usize) -> &[u8]
    ensures { VeryPartOf bytes.entry result (table_span (length bytes.now) (as_entry region) stride) }
{
    part_at(bytes, records_span(bytes.len(), region, stride).ok())
}

// Whether bytes in hand are a table of records of stride bytes.
pub fn is_table(bytes: &[u8], stride: usize) -> bool
    ensures { result ≡ is_table (length bytes.now) stride }
{
    if stride == 0 {
        return false;
    }
    if stride % 8 != 0 {
        return false;
    }
    bytes.len() % stride == 0
}

// How many records a table has; none at stride 0.
pub fn record_count(bytes: &[u8], stride: usize) -> usize
    ensures { result ≡ record_count (length bytes.now) stride }
{
    if stride == 0 { 0 } else { bytes.len() / stride }
}

// Where record index of a table of len bytes starts and ends, or nothing.
pub fn record_place(len: usize, stride: usize, index: usize) -> Option<Place>
    ensures { as_place result ≡ record_range len stride index }
{
    if stride == 0 {
        return None;
    }
    if index < len / stride {
        let start = index * stride;
        Some(Place {
            start,
            end: start + stride,
        })
    } else {
        None
    }
}

// The very bytes of a record; none where there is no such record.
pub fn record_bytes(bytes: &[u8], stride: usize, index: usize) -> &[u8]
    ensures { VeryPartIn bytes.entry result (record_range (length bytes.now) stride index) }
{
    part_at(bytes, record_place(bytes.len(), stride, index))
}

// A range of records that lies behind record at, and inside the table.
pub fn range_is_forward(bytes: &[u8], stride: usize, at: usize, first: u32, count: u32) -> bool
    ensures { result ≡ range_is_forward (record_count (length bytes.now) stride) at first count }
{
    if first as usize <= at {
        return false;
    }
    first as usize + count as usize <= record_count(bytes, stride)
}

// Where an offset and a length lie in a pool of len bytes, or nothing where they end past it.
pub fn pool_place(len: usize, offset: u32, size: u32) -> Option<Place>
    ensures { as_place result ≡ pool_range len offset size }
{
    let start = offset as usize;
    let end = start + size as usize;
    if end <= len {
        Some(Place { start, end })
    } else {
        None
    }
}

pub fn pool_bytes(bytes: &[u8], offset: u32, size: u32) -> &[u8]
    ensures { VeryPartIn bytes.entry result (pool_range (length bytes.now) offset size) }
{
    part_at(bytes, pool_place(bytes.len(), offset, size))
}
