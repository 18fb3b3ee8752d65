// A table of records, after view.rs. (FORMAT 6)
ghost use Rattle.std.specs.Prelude.{◌≡◌, cond, [], eqb, length};
ghost use Rattle.model.specs.Views.{is_table, record_count, record_range, range_is_forward};
ghost use Rattle.tables.specs.Answers.{as_place};
ghost use Rattle.tables.specs.Parts.{PartAt, VeryPartIn};

use tables::Place;

// Records of stride bytes, one behind the other.
#[derive(Clone, Copy)]
pub struct RecordTable<'a> {
    pub bytes: &'a [u8],
    pub stride: usize,
}

impl<'a> RecordTable<'a> {
    // Bytes that are no table of that stride make the table without bytes, whose stride is 0. An `Option` would tell callers less:
    // the clause says of every argument where the bytes lie, and it may not change.
    pub fn from_bytes(bytes: &'a [u8], stride: usize) -> RecordTable<'a>
        ensures { PartAt bytes.entry result.bytes 0 (cond (is_table (length bytes.now) stride) bytes.now [])
            × (result.stride ≡ cond (is_table (length bytes.now) stride) stride 0) }
    {
        if tables::is_table(bytes, stride) {
            return RecordTable { bytes, stride };
        }
        RecordTable {
            bytes: &bytes[0..0],
            stride: 0,
        }
    }

    pub fn len(self) -> usize
        ensures { result ≡ record_count (length self.entry.bytes.now) self.entry.stride }
    {
        tables::record_count(self.bytes, self.stride)
    }

    pub fn is_empty(self) -> bool
        ensures { result ≡ eqb (record_count (length self.entry.bytes.now) self.entry.stride) 0 }
    {
        no_records(self.bytes, self.stride)
    }

    pub fn stride(self) -> usize
        ensures { result ≡ self.entry.stride }
    {
        self.stride
    }

    // Where a record starts and ends, or nothing.
    pub fn place(self, index: usize) -> Option<Place>
        ensures { as_place result ≡ record_range (length self.entry.bytes.now) self.entry.stride index }
    {
        place_in(self.bytes, self.stride, index)
    }

    // The very bytes of a record; none where there is no such record. The slice is empty and no `Option` is answered, since the
    // clause says of every index where the slice lies, and it may not change.
    pub fn get(self, index: usize) -> &'a [u8]
        ensures { VeryPartIn self.entry.bytes result (record_range (length self.entry.bytes.now) self.entry.stride index) }
    {
        tables::record_bytes(self.bytes, self.stride, index)
    }

    // A range of records that lies behind record at, and inside the table.
    pub fn range_is_forward(self, at: usize, first: u32, count: u32) -> bool
        ensures { result ≡ range_is_forward (record_count (length self.entry.bytes.now) self.entry.stride) at first count }
    {
        tables::range_is_forward(self.bytes, self.stride, at, first, count)
    }
}

fn no_records(bytes: &[u8], stride: usize) -> bool
    ensures { result ≡ eqb (record_count (length bytes.now) stride) 0 }
{
    tables::record_count(bytes, stride) == 0
}

fn place_in(bytes: &[u8], stride: usize, index: usize) -> Option<Place>
    ensures { as_place result ≡ record_range (length bytes.now) stride index }
{
    tables::record_place(bytes.len(), stride, index)
}
