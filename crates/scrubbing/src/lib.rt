// Scrub, after view.rs: corrected words are written in place without their check bytes, and counts are handed back. (FORMAT 8)
#![tactic(auto)]

ghost use Rattle.std.specs.Prelude.{◌≡◌};
ghost use Rattle.scan.specs.Answers.{as_scan};
ghost use Rattle.model.specs.Scrub as model;

use correcting::correct_region;
use ecc::{CheckTable, EMPTY_TABLE, EccReport, fill_check_table};
use scan::together;
use view::parse;

// Repairs the corrected words of every protected region and hands back counts: what is left has to be checked afresh.
// The image is parsed again before a region only where something was written since.
pub fn scrub(bytes: &mut [u8]) -> Option<EccReport>
    ensures is { as_scan result ≡ (model.scrub bytes.old).report }
    ensures leaves { bytes.new ≡ (model.scrub bytes.old).image }
{
    let Ok(first) = parse(bytes) else {
        return None;
    };
    let mut room = EMPTY_TABLE;
    fill_check_table(&mut room);
    let table = CheckTable::of(&room);
    let mut header = first;
    let mut written = false;
    let mut total = None;
    for i in 0..first.region_count {
        if written {
            let Ok(again) = parse(bytes) else {
                return None;
            };
            header = again;
        }
        let found = correct_region(table, bytes, header, i, false);
        written = found.is_some_and(EccReport::needs_scrub);
        total = together(total, found);
    }
    total
}
