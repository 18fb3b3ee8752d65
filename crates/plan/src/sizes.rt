// The sizes of a plan's image, and the refusals that speak of them. (FORMAT 9)
ghost use Rattle.std.specs.Prelude.{◌≡◌, ◌*◌, ◌≤◌, length};
ghost use Rattle.model.specs.Writer.{row_words_lem, planes_words};
ghost use Rattle.model.specs.Writer as model;
ghost use Rattle.error.specs.Refused.{as_check};
ghost use Rattle.plan.specs.Rows.{as_plan};
ghost use Rattle.plan.specs.Sizes.{sizes_verdict};

use super::rows::Row;
use error::Refusal;
use layout::{MAX_IMAGE_BYTES, WORD, header_length};

// The words of the rows' regions, and of their planes.
fn count_words(rows: &[Row]) -> (usize, usize)
    requires { length rows.now ≤ 1024 }
    ensures words { result.0 ≡ row_words_lem (as_plan rows.now) }
    ensures planes { result.1 ≡ planes_words (as_plan rows.now) }
    ensures few { (result.0 ≤ 1024 * 4294967295) × (result.1 ≤ 1024 * 4294967295) }
{
    let mut words: usize = 0;
    let mut planes: usize = 0;
    for row in rows {
        words += row.words as usize;
        if row.is_protected() {
            planes += row.plane_words();
        }
    }
    (words, planes)
}

// Checks what is left once the rows passed their own checks and have at most 1,024 regions: the payload's length, the image's, the room for it.
pub fn check_sizes(rows: &[Row], regions: usize, payload: &[u8], room: usize) -> Result<(), Refusal>
    requires { (length rows.now ≤ 1024) × (regions ≤ 1024) × (regions ≡ model.regions (as_plan rows.now)) }
    ensures { as_check result ≡ sizes_verdict (as_plan rows.now) payload.now room }
{
    let (words, planes) = count_words(rows);
    if payload.len() != WORD * words {
        return Err(Refusal::BadPlan { row: rows.len() });
    }
    let length = header_length(regions as u16) + WORD * (words + planes);
    if length > MAX_IMAGE_BYTES {
        return Err(Refusal::TooLarge);
    }
    if room < length {
        return Err(Refusal::NoRoom);
    }
    Ok(())
}
