// The writer: an image of a plan, rows beside one payload. (FORMAT 9)
#![tactic(auto)]

ghost use Rattle.std.specs.Prelude.{◌≡◌, length};
ghost use Rattle.model.specs.Writer as model;
ghost use Rattle.plan.specs.Rows.{as_plan};
ghost use Rattle.writer.specs.Answers.{as_written, answer_of, bytes_after};

mod directory;
mod image;
mod planes;
mod prologue;

use error::Refusal;
use image::put_image;
use layout::MAX_REGIONS;
use plan::{Row, check_rows, check_sizes};

// The image of the plan goes to the front of `out`, and the answer is its length; a refusal leaves every byte of `out` as it was.
// The buffer is lent and its length answered as C's `kw_write` does it, in fixed memory.
pub fn write(rows: &[Row], payload: &[u8], out: &mut [u8]) -> Result<usize, Refusal>
    ensures is { as_written result ≡ answer_of (model.write (as_plan rows.now) payload.now (length out.old)) }
    ensures leaves { out.new ≡ bytes_after (model.write (as_plan rows.now) payload.now (length out.old)) out.old }
{
    let regions = check_rows(rows)?;
    if regions > MAX_REGIONS {
        return Err(Refusal::TooManyRegions { found: regions });
    }
    check_sizes(rows, regions, payload, out.len())?;
    Ok(put_image(out, rows, regions, payload))
}
