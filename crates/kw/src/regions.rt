// Where a region lies, by its kind and by its place in the directory. (FORMAT 6)
ghost use Rattle.std.specs.Prelude.{◌≡◌};
ghost use Rattle.model.specs.Layout.{count};
ghost use Rattle.model.specs.Parse.{parse};
ghost use Rattle.model.specs.Views.{find_region, region_at};
ghost use Rattle.view.specs.Answers.{found_as};
ghost use Rattle.kw.specs.Numbers.{refusal_number};
ghost use Rattle.kw.specs.Regions.{place_numbers, region_numbers, entry_numbers, region_at_numbers, as_found};

use layout::Region;
use view::Header;

// {1, first byte, byte past the last, flags}, or zeros for nothing.
fn place_numbers(found: Option<Region>) -> [u64; 4]
    ensures { result ≡ place_numbers (as_found found) }
{
    match found {
        Some(r) => [
            1,
            r.byte_offset() as u64,
            r.byte_end() as u64,
            r.flags as u64,
        ],
        None => [0, 0, 0, 0],
    }
}

// {1, kind, flags, first byte, byte past the last, covers}, or zeros for nothing.
fn entry_numbers(found: Option<Region>) -> [u64; 6]
    ensures { result ≡ entry_numbers (as_found found) }
{
    match found {
        Some(r) => [
            1,
            r.kind as u64,
            r.flags as u64,
            r.byte_offset() as u64,
            r.byte_end() as u64,
            r.covers as u64,
        ],
        None => [0, 0, 0, 0, 0, 0],
    }
}

// The directory entry at an index of 32 bits; nothing past the last.
fn entry_at(image: &[u8], header: Header, index: u32) -> Option<Region>
    ensures { result ≡ found_as (region_at header.region_count image.now index) }
{
    if header.region_count as u32 <= index {
        return None;
    }
    view::region_at(image, header, index as u16)
}

// 0 and where the region of this kind lies, or a refusal's number and {detail, 0, 0, 0}.
#[unsafe(no_mangle)]
pub extern "C" fn kw_region(image: &[u8], kind: u16, answer: &mut [u64; 4]) -> u32
    ensures is { result ≡ refusal_number (parse image.now) }
    ensures answers { answer.new ≡ region_numbers (parse image.now) (find_region (count image.now) image.now kind) }
{
    match view::parse(image) {
        Ok(h) => {
            *answer = place_numbers(view::find_region(image, h, kind));
            0
        }
        Err(r) => {
            *answer = [r.detail(), 0, 0, 0];
            r.number()
        }
    }
}

// 0 and directory entry index, or a refusal's number and {detail, 0, 0, 0, 0, 0}.
#[unsafe(no_mangle)]
pub extern "C" fn kw_region_at(image: &[u8], index: u32, answer: &mut [u64; 6]) -> u32
    ensures is { result ≡ refusal_number (parse image.now) }
    ensures answers { answer.new ≡ region_at_numbers (parse image.now) (region_at (count image.now) image.now index) }
{
    match view::parse(image) {
        Ok(h) => {
            *answer = entry_numbers(entry_at(image, h, index));
            0
        }
        Err(r) => {
            *answer = [r.detail(), 0, 0, 0, 0, 0];
            r.number()
        }
    }
}
