// The image of a plan whose rows and sizes are checked, in address order. (FORMAT 9)
ghost use Rattle.std.specs.Prelude.{◌≡◌, length};
ghost use Rattle.model.specs.Refusals.{fine};
ghost use Rattle.model.specs.Writer.{plan_image, plan_verdict};
ghost use Rattle.model.specs.Writer as model;
ghost use Rattle.plan.specs.Rows.{as_plan};
ghost use Rattle.put.specs.Put.{Put};

use crate::directory::Directory;
use crate::planes::put_planes;
use crate::prologue::put_prologues;
use layout::{WORD, header_length};
use plan::Row;
use put::put_bytes;

pub(crate) fn put_image(out: &mut [u8], rows: &[Row], regions: usize, payload: &[u8]) -> usize
    requires counted { regions ≡ model.regions (as_plan rows.now) }
    requires fine { plan_verdict (as_plan rows.now) payload.now (length out.old) ≡ fine }
    ensures { Put out.old 0 (plan_image (as_plan rows.now) payload.now) result out.new }
{
    let count = regions as u16;
    let directory = put_prologues(out, count, 0);
    let first_word = (header_length(count) / WORD) as u32;
    let plane_word = first_word + (payload.len() / WORD) as u32;
    let copies = Directory {
        rows,
        first_word,
        plane_word,
    };
    let packed = copies.put_copies(out, directory);
    let planes = put_bytes(out, packed, payload);
    put_planes(out, planes, rows, payload)
}
