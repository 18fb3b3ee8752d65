// The words of an entry that a scan examines: those of a protected region that have a check byte in its plane. (FORMAT 7)
ghost use Rattle.model.specs.Views.{entries_for};
ghost use Rattle.std.specs.Prelude.{length};
ghost use Rattle.model.specs.Scan.{plane_of, visit_with};
ghost use Rattle.layout.specs.Regions.{as_entry};
ghost use Rattle.scan.specs.Runs.{visits_at, IsRun};

use layout::Region;
use tables::region_span;
use view::{Header, ecc_for, region_at};

// `words` words from word `word` on, with check bytes from byte `check` on. A region with a plane has a run, even without words.
#[derive(Clone, Copy, Debug, PartialEq, Eq)]
pub struct ProtectedRun {
    pub word: usize,
    pub check: usize,
    pub words: usize,
}

// The words of a region that have a check byte in its plane, whatever its flags; nothing without a plane.
pub(crate) fn run_with_plane(bytes: &[u8], header: Header, region: Region) -> Option<ProtectedRun>
    ensures { IsRun bytes.now (visit_with (as_entry region) (plane_of (length bytes.now) (entries_for header.region_count bytes.now) (as_entry region))) result }
{
    let plane = ecc_for(bytes, header, region)?;
    let Ok(_) = region_span(bytes.len(), region) else {
        return None;
    };
    Some(ProtectedRun {
        word: region.word_offset as usize,
        check: plane.start,
        words: usize::min(region.word_length as usize, plane.end - plane.start),
    })
}

// The run of entry i, if there is one and it is protected.
pub fn protected_run_at(bytes: &[u8], header: Header, i: u16) -> Option<ProtectedRun>
    ensures { IsRun bytes.now (visits_at header.region_count bytes.now i) result }
{
    let region = region_at(bytes, header, i)?;
    if !region.is_protected() {
        return None;
    }
    run_with_plane(bytes, header, region)
}
