// A pool of bytes, after view.rs. (FORMAT 6)
ghost use Rattle.std.specs.Prelude.{◌≡◌, length};
ghost use Rattle.model.specs.Views.{pool_range};
ghost use Rattle.tables.specs.Answers.{as_place};
ghost use Rattle.tables.specs.Parts.{VeryPartIn};

use tables::Place;

#[derive(Clone, Copy)]
pub struct Pool<'a> {
    pub bytes: &'a [u8],
}

impl<'a> Pool<'a> {
    pub fn from_bytes(bytes: &'a [u8]) -> Pool<'a>
        ensures { result.bytes ≡ bytes.entry }
    {
        Pool { bytes }
    }

    pub fn bytes(self) -> &'a [u8]
        ensures { result ≡ self.entry.bytes }
    {
        self.bytes
    }

    // Where a part starts and ends, or nothing.
    pub fn place(self, offset: u32, len: u32) -> Option<Place>
        ensures { as_place result ≡ pool_range (length self.entry.bytes.now) offset len }
    {
        place_in(self.bytes, offset, len)
    }

    // The very bytes of a part; none where it doesn't end inside the pool. The slice is empty and no `Option` is answered, since the
    // clause says of every part where the slice lies, and it may not change.
    pub fn slice(self, offset: u32, len: u32) -> &'a [u8]
        ensures { VeryPartIn self.entry.bytes result (pool_range (length self.entry.bytes.now) offset len) }
    {
        tables::pool_bytes(self.bytes, offset, len)
    }
}

fn place_in(bytes: &[u8], offset: u32, len: u32) -> Option<Place>
    ensures { as_place result ≡ pool_range (length bytes.now) offset len }
{
    tables::pool_place(bytes.len(), offset, len)
}
