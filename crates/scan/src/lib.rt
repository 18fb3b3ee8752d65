// Scans of an image against its parity planes, after view.rs: they count, and write nothing. (FORMAT 7)
#![tactic(auto)]

mod runs;
mod tally;

ghost use Rattle.std.specs.Prelude.{◌≡◌, ◌^◌, ◌<◌};
ghost use Rattle.model.specs.Scan.{classes_at, report, scan_of, scan_region, scan_in};
ghost use Rattle.ecc.specs.Answers.{as_report};
ghost use Rattle.layout.specs.Regions.{as_entry};
ghost use Rattle.scan.specs.Answers.{as_scan};
ghost use Rattle.scan.specs.Runs.{codewords_of, visits_at, Fits};
ghost use Rattle.scan.specs.Tally.{or_zeros};

use ecc::{CheckTable, EMPTY_TABLE, EccReport, fill_check_table};
use layout::Region;
use runs::run_with_plane;
pub use runs::{ProtectedRun, protected_run_at};
pub use tally::{count_word, together, visit};
use view::Header;

#[tactic(auto, using(model::proofs::ScanLaw::slice_scan_lem))]
fn scan_run(table: CheckTable, bytes: &[u8], run: ProtectedRun) -> EccReport
    requires { Fits bytes.now run }
    ensures { as_report result ≡ report (classes_at bytes.now (codewords_of run)) }
{
    let start = 8 * run.word;
    let end = start + 8 * run.words;
    let check = run.check;
    let check_end = check + run.words;
    table.plane_scan(&bytes[check..check_end], &bytes[start..end])
}

// The report on entry i, if it is protected and has a plane.
fn scan_entry(table: CheckTable, bytes: &[u8], header: Header, i: u16) -> Option<EccReport>
    ensures is { as_scan result ≡ scan_of bytes.now (visits_at header.region_count bytes.now i) }
    ensures few { (or_zeros (as_scan result)).words < 2 ^ 32 }
{
    let run = protected_run_at(bytes, header, i)?;
    Some(scan_run(table, bytes, run))
}

// One region against its plane; flag 2 is not asked for. Nothing without a plane.
pub fn verify_region(bytes: &[u8], header: Header, region: Region) -> Option<EccReport>
    ensures { as_scan result ≡ scan_region header.region_count bytes.now (as_entry region) }
{
    let mut room = EMPTY_TABLE;
    fill_check_table(&mut room);
    let table = CheckTable::of(&room);
    let run = run_with_plane(bytes, header, region)?;
    Some(scan_run(table, bytes, run))
}

// Every protected region against its plane, summed; nothing where no region is visited, which is not a clean scan.
pub fn verify_all(bytes: &[u8], header: Header) -> Option<EccReport>
    ensures { as_scan result ≡ scan_in header.region_count bytes.now }
{
    let mut room = EMPTY_TABLE;
    fill_check_table(&mut room);
    let table = CheckTable::of(&room);
    let mut total = None;
    for i in 0..header.region_count {
        let found = scan_entry(table, bytes, header, i);
        total = together(total, found);
    }
    total
}
