// The directory's entries by the vote over its copies. (FORMAT 3, 6)
ghost use Rattle.std.specs.Prelude.{◌≡◌, ◌&&◌, eqb, ◌+◌, ◌*◌, ◌<◌, ◌≤◌, length, MatchOption};
ghost use Rattle.model.specs.Bytes.{read};
ghost use Rattle.model.specs.Layout.{voted, header_length, directory_of, is_plane};
ghost use Rattle.model.specs.Steps.{entry_in};
ghost use Rattle.model.specs.Views.{first_that, plane_for};
ghost use Rattle.layout.specs.Regions.{region_of};
ghost use Rattle.view.specs.Answers.{found_as};

use crate::vote::Copies;
use layout::{DIR_ENTRY_BYTES, DIRECTORY_OFFSET, FLAG_IS_ECC, Region, header_length};
use scalar::Number;

// `count` entries, whose copies all lie in the bytes. That parse found at most 1,024 is no field: a lookup takes any header.
#[derive(Clone, Copy)]
pub(crate) struct Directory<'a> {
    pub(crate) bytes: &'a [u8],
    pub(crate) count: u16,
    ghost fits: { header_length count ≤ length bytes.now },
}

impl<'a> Directory<'a> {
    // Nothing where the bytes end inside the copies.
    pub(crate) fn of(bytes: &'a [u8], count: u16) -> Option<Directory<'a>>
        ensures { MatchOption result (length bytes.now < header_length count) (λ d. (d.bytes ≡ bytes.entry) × (d.count ≡ count)) }
    {
        if bytes.len() < header_length(count) {
            return None;
        }
        Some(Directory { bytes, count })
    }

    pub(crate) fn copies(self) -> Copies<'a>
        ensures { (result.bytes ≡ self.entry.bytes) × (result.base ≡ 48) × (result.len ≡ 16 * self.entry.count) }
    {
        Copies {
            bytes: self.bytes,
            base: DIRECTORY_OFFSET,
            len: DIR_ENTRY_BYTES * self.count as usize,
        }
    }

    // The number in the N bytes from byte `field` on of entry i.
    pub(crate) fn number_at<T: Number<N>, const N: usize>(self, i: usize, field: usize) -> T
        requires { (i < self.count) × (field + N ≤ 16) }
        ensures { T.value result ≡ read N (voted 48 (16 * self.entry.count) self.entry.bytes.now) (16 * i + field) }
    {
        self.copies().number_at(DIR_ENTRY_BYTES * i + field)
    }

    // Entry i.
    pub(crate) fn region(self, i: usize) -> Region
        requires { i < self.count }
        ensures { result ≡ region_of (entry_in self.entry.count self.entry.bytes.now i) }
    {
        Region {
            kind: self.number_at(i, 0),
            flags: self.number_at(i, 2),
            word_offset: self.number_at(i, 4),
            word_length: self.number_at(i, 8),
            covers: self.number_at(i, 12),
        }
    }

    // The first plane in directory order that covers this kind.
    pub(crate) fn plane_of(self, kind: u16) -> Option<Region>
        ensures { result ≡ found_as (first_that (plane_for kind) (directory_of self.entry.count self.entry.bytes.now)) }
    {
        for i in 0..self.count as usize {
            if covers_kind(self.number_at(i, 2), self.number_at(i, 12), kind) {
                return Some(self.region(i));
            }
        }
        None
    }
}

// An entry with these flags and this covers field is a plane of the kind.
fn covers_kind(flags: u16, covers: u16, kind: u16) -> bool
    ensures { result ≡ is_plane flags && eqb covers kind }
{
    if flags & FLAG_IS_ECC == 0 {
        return false;
    }
    covers == kind
}
