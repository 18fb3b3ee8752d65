// Lookups on bytes and a header that stands beside them. Each clause is of any pair of the two, also where the header was read off
// other bytes, so no struct holds both. (FORMAT 6)
ghost use Rattle.std.specs.Prelude.{◌≡◌};
ghost use Rattle.model.specs.Views.{region_at, find_region, ecc_for};
ghost use Rattle.tables.specs.Answers.{as_place};
ghost use Rattle.view.specs.Answers.{found_as};

use super::header::Header;
use crate::directory::Directory;
use layout::Region;
use tables::Place;

// Directory entry index.
pub fn region_at(bytes: &[u8], header: Header, index: u16) -> Option<Region>
    ensures { result ≡ found_as (region_at header.region_count bytes.now index) }
{
    let directory = Directory::of(bytes, header.region_count)?;
    if directory.count <= index {
        return None;
    }
    Some(directory.region(index as usize))
}

// The first region of this kind; of bytes that parse accepted it is the only one.
pub fn find_region(bytes: &[u8], header: Header, kind: u16) -> Option<Region>
    ensures { result ≡ found_as (find_region header.region_count bytes.now kind) }
{
    let directory = Directory::of(bytes, header.region_count)?;
    for i in 0..directory.count as usize {
        let found: u16 = directory.number_at(i, 0);
        if found == kind {
            return Some(directory.region(i));
        }
    }
    None
}

// Where the plane of a region stands, if its bytes are all there.
pub fn ecc_for(bytes: &[u8], header: Header, region: Region) -> Option<Place>
    ensures { as_place result ≡ ecc_for header.region_count bytes.now region.kind }
{
    let directory = Directory::of(bytes, header.region_count)?;
    let plane = directory.plane_of(region.kind)?;
    let end = plane.byte_end();
    if bytes.len() < end {
        return None;
    }
    Some(Place {
        start: plane.byte_offset(),
        end,
    })
}
