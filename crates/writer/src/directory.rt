// The directory of a plan, put in three copies. (FORMAT 9)
ghost use Rattle.std.specs.Prelude.{◌≡◌, ◌+◌, ◌*◌, ◌≤◌, ◌<◌, length};
ghost use Rattle.std.proofs.Props.{props};
ghost use Rattle.model.specs.Bytes.{thrice};
ghost use Rattle.model.specs.Writer.{row_words_lem, planes_words, row_entry, plane_entry, row_entries, plane_entries, entry_bytes, entries_bytes};
ghost use Rattle.plan.specs.Rows.{as_row, as_plan};
ghost use Rattle.writer.specs.Directory.{directory_bytes, LowKinds};
ghost use Rattle.put.specs.Put.{Put};
ghost use Rattle.layout.specs.Regions.{as_entry};

use ecc::ECC_KIND_BIT;
use layout::{COPIES, FLAG_IS_ECC, Region};
use plan::Row;
use put::put_number;

// The directory of rows whose regions start at word `first_word` and whose planes start at word `plane_word`: every region and
// plane starts at a word that 32 bits hold, and no kind is a plane's.
#[derive(Clone, Copy)]
pub(crate) struct Directory<'a> {
    pub(crate) rows: &'a [Row],
    pub(crate) first_word: u32,
    pub(crate) plane_word: u32,
    ghost regions_fit: { first_word + row_words_lem (as_plan rows.now) < 4294967296 },
    ghost planes_fit: { plane_word + planes_words (as_plan rows.now) < 4294967296 },
    ghost low: { LowKinds rows.now } by { Prim.hlevel props },
}

impl<'a> Directory<'a> {
    // The three copies, from `at` on.
    pub(crate) fn put_copies(self, out: &mut [u8], at: usize) -> usize
        requires { at + 3 * length (directory_bytes self.first_word self.plane_word self.rows.now) ≤ length out.old }
        ensures { Put out.old at (thrice (directory_bytes self.entry.first_word self.entry.plane_word self.entry.rows.now)) result out.new }
    {
        let mut next = at;
        for _copy in 0..COPIES {
            next = self.put_copy(out, next);
        }
        next
    }

    // One copy: the rows in order, then the planes in row order.
    fn put_copy(self, out: &mut [u8], at: usize) -> usize
        requires { at + length (directory_bytes self.first_word self.plane_word self.rows.now) ≤ length out.old }
        ensures { Put out.old at (directory_bytes self.entry.first_word self.entry.plane_word self.entry.rows.now) result out.new }
    {
        let planes = self.put_row_entries(out, at);
        self.put_plane_entries(out, planes)
    }

    fn put_row_entries(self, out: &mut [u8], at: usize) -> usize
        requires { at + length (entries_bytes (row_entries self.first_word (as_plan self.rows.now))) ≤ length out.old }
        ensures { Put out.old at (entries_bytes (row_entries self.entry.first_word (as_plan self.entry.rows.now))) result out.new }
    {
        let mut next = at;
        let mut offset = self.first_word;
        for row in self.rows {
            next = put_entry(out, next, row_entry(*row, offset));
            offset += row.words;
        }
        next
    }

    // The rows' loop with another entry, and for fewer rows: a loop for both would take a closure, and its contract a ghost function
    // for the closure and a law for each of the two, which is no plainer.
    fn put_plane_entries(self, out: &mut [u8], at: usize) -> usize
        requires { at + length (entries_bytes (plane_entries self.plane_word (as_plan self.rows.now))) ≤ length out.old }
        ensures { Put out.old at (entries_bytes (plane_entries self.entry.plane_word (as_plan self.entry.rows.now))) result out.new }
    {
        let mut next = at;
        let mut offset = self.plane_word;
        for row in self.rows {
            if row.is_protected() {
                next = put_entry(out, next, plane_entry(*row, offset));
                offset += row.plane_words() as u32;
            }
        }
        next
    }
}

fn put_entry(out: &mut [u8], at: usize, entry: Region) -> usize
    requires { at + 16 ≤ length out.old }
    ensures { Put out.old at (entry_bytes (as_entry entry)) result out.new }
{
    let flags = put_number(out, at, entry.kind);
    let offset = put_number(out, flags, entry.flags);
    let length = put_number(out, offset, entry.word_offset);
    let covers = put_number(out, length, entry.word_length);
    let reserved = put_number(out, covers, entry.covers);
    put_number(out, reserved, 0u16)
}

fn row_entry(row: Row, offset: u32) -> Region
    ensures { as_entry result ≡ row_entry offset (as_row row) }
{
    Region {
        kind: row.kind,
        flags: row.flags,
        word_offset: offset,
        word_length: row.words,
        covers: 0,
    }
}

fn plane_entry(row: Row, offset: u32) -> Region
    requires { row.kind < 0x8000 }
    ensures { as_entry result ≡ plane_entry offset (as_row row) }
{
    let kind = row.kind;
    Region {
        kind: ECC_KIND_BIT + kind,
        flags: FLAG_IS_ECC,
        word_offset: offset,
        word_length: row.plane_words() as u32,
        covers: kind,
    }
}
