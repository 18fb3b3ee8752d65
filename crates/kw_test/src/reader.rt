// Parse and lookups. A lookup's header is made of the count alone: no lookup reads the two marks.
ghost use Rattle.std.specs.Prelude.{◌≡◌};
ghost use Rattle.model.specs.Parse as model;
ghost use Rattle.model.specs.Views.{region_at, find_region, ecc_for};
ghost use Rattle.tables.specs.Answers.{as_place};
ghost use Rattle.kw_test.specs.Reader.{parsed_numbers, found_numbers, entry_numbers, place_numbers};

use layout::Region;
use tables::Place;
use view::Header;

pub(crate) fn header_of(count: u16) -> Header
    ensures { result.region_count ≡ count }
{
    Header {
        region_count: count,
        prologue_disagreed: false,
        directory_disagreed: false,
    }
}

fn found_numbers(found: Option<Region>) -> [u64; 6]
    ensures { result ≡ found_numbers found }
{
    match found {
        Some(r) => [
            1,
            r.kind as u64,
            r.flags as u64,
            r.word_offset as u64,
            r.word_length as u64,
            r.covers as u64,
        ],
        None => [0, 0, 0, 0, 0, 0],
    }
}

pub(crate) fn place_numbers(place: Option<Place>) -> [u64; 3]
    ensures { result ≡ place_numbers (as_place place) }
{
    match place {
        Some(place) => [1, place.start as u64, place.end as u64],
        None => [0, 0, 0],
    }
}

// {0, the number of regions, prologue copies disagreed, directory copies disagreed}, or {number, detail, 0, 0} of a refusal.
#[unsafe(no_mangle)]
pub extern "C" fn kwt_parse(bytes: &[u8], answer: &mut [u64; 4])
    ensures { answer.new ≡ parsed_numbers (model.parse bytes.now) }
{
    match view::parse(bytes) {
        Ok(h) => {
            *answer = [
                0,
                h.region_count as u64,
                h.prologue_disagreed as u64,
                h.directory_disagreed as u64,
            ]
        }
        Err(r) => *answer = [r.number() as u64, r.detail(), 0, 0],
    }
}

// {1, kind, flags, word offset, word length, covers}, or zeros for nothing.
#[unsafe(no_mangle)]
pub extern "C" fn kwt_region_at(bytes: &[u8], count: u16, index: u16, answer: &mut [u64; 6])
    ensures { answer.new ≡ entry_numbers (region_at count bytes.now index) }
{
    *answer = found_numbers(view::region_at(bytes, header_of(count), index));
}

#[unsafe(no_mangle)]
pub extern "C" fn kwt_find_region(bytes: &[u8], count: u16, kind: u16, answer: &mut [u64; 6])
    ensures { answer.new ≡ entry_numbers (find_region count bytes.now kind) }
{
    *answer = found_numbers(view::find_region(bytes, header_of(count), kind));
}

// Where the plane of a region of this kind stands: {1, start, end}, or zeros for nothing.
#[unsafe(no_mangle)]
pub extern "C" fn kwt_ecc_for(bytes: &[u8], count: u16, kind: u16, answer: &mut [u64; 3])
    ensures { answer.new ≡ place_numbers (ecc_for count bytes.now kind) }
{
    let region = Region {
        kind,
        flags: 0,
        word_offset: 0,
        word_length: 0,
        covers: 0,
    };
    *answer = place_numbers(view::ecc_for(bytes, header_of(count), region));
}
