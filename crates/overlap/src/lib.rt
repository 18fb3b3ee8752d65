// Where regions lie: parse, then whether those that hold bytes keep off the header and off each other. (FORMAT 10)
#![tactic(auto)]

mod spans;

ghost use Rattle.std.specs.Prelude.{◌≡◌, List, [], ◌≤◌, ◌<◌, take};
ghost use Rattle.model.specs.Layout.{Entry};
ghost use Rattle.model.specs.Views.{entries_for};
ghost use Rattle.model.specs.Mend as model;
ghost use Rattle.layout.specs.Regions.{as_entry};
ghost use Rattle.view.specs.Answers.{as_header};
ghost use Rattle.overlap.specs.declared.Misplaced.TheVariants.{Refused};
ghost use Rattle.overlap.specs.Answers.{refusal_of, as_placement, overlap_as};
ghost use Rattle.overlap.specs.Spans.{Holds};

use error::Refusal;
use layout::{Region, header_length};
use spans::{SpanTable, end_word, last_word};
use view::{Header, parse, region_at};

// Why mend refuses an image: the first misplaced entry, with what it lies on, the header, or else the lowest earlier entry
// that it shares a byte with; or parse's refusal.
#[derive(Clone, Copy, Debug, PartialEq, Eq)]
pub enum Misplaced {
    OnHeader { index: u16 },
    OnRegion { index: u16, earlier: u16 },
    Refused(Refusal),
}

impl From<Refusal> for Misplaced {
    ghost from_gives = { λ r m. m ≡ Refused r };

    fn from(refusal: Refusal) -> Misplaced {
        Misplaced::Refused(refusal)
    }
}

impl From<Misplaced> for Refusal {
    ghost from_gives = { λ m r. r ≡ refusal_of m };

    fn from(misplaced: Misplaced) -> Refusal {
        match misplaced {
            Misplaced::OnHeader { index } => Refusal::OverlappingRegions { index },
            Misplaced::OnRegion { index, earlier: _ } => Refusal::OverlappingRegions { index },
            Misplaced::Refused(refusal) => refusal,
        }
    }
}

// The header of an image whose regions lie apart.
pub fn check_placement(bytes: &[u8]) -> Result<Header, Misplaced>
    ensures { as_placement result ≡ model.placement bytes.now }
{
    let header = parse(bytes)?;
    check_regions(bytes, header)
}

// Looks at each entry in turn, and notes its words for those behind it.
fn check_regions(bytes: &[u8], header: Header) -> Result<Header, Misplaced>
    requires { header.region_count ≤ 1024 }
    ensures { as_placement result ≡ model.placement_from (as_header header) 0 [] (entries_for header.region_count bytes.now) }
{
    let n = header.region_count;
    let mut spans = SpanTable::empty();
    let mut high: usize = 0;
    for i in 0..n {
        let Some(region) = region_at(bytes, header, i) else {
            return Ok(header);
        };
        check_entry(&spans, n, i, high, region)?;
        spans.note(i, region.word_offset, last_word(region));
        high = usize::max(end_word(region), high);
    }
    Ok(header)
}

// What entry i of n lies on. The earlier ones end at word high at the latest, so an entry that starts there or later meets
// none of them, and regions in ascending order are passed once.
fn check_entry(
    spans: &SpanTable,
    n: u16,
    i: u16,
    high: usize,
    region: Region,
) -> Result<(), Misplaced>
    requires { i < 1024 }
    ensures { (es : List Entry) → Holds es i spans.now high
        → result ≡ overlap_as i (model.in_header n (as_entry region)) (model.meets_from 0 (as_entry region) (take i es)) }
{
    if region.word_length == 0 {
        return Ok(());
    }
    if region.byte_offset() < header_length(n) {
        return Err(Misplaced::OnHeader { index: i });
    }
    if high <= region.word_offset as usize {
        return Ok(());
    }
    let last = last_word(region);
    if !spans.meet(i, region.word_offset, last) {
        return Ok(());
    }
    match spans.lowest_met(i, region.word_offset, last) {
        Some(earlier) => Err(Misplaced::OnRegion { index: i, earlier }),
        None => Ok(()),
    }
}
