// The word half of mend: every corrected word is stored with its check byte, and nothing else moves. (FORMAT 10)
ghost use Rattle.std.specs.Prelude.{◌≡◌};
ghost use Rattle.model.specs.Scan.{scan};
ghost use Rattle.lemmas.specs.Steps.{mend_words};
ghost use Rattle.scan.specs.Answers.{as_scan};
ghost use Rattle.mending.specs.Mendable.{Mendable};

use correcting::correct_region;
use ecc::{CheckTable, EMPTY_TABLE, EccReport, fill_check_table};
use scan::together;
use view::Header;

// Mends every protected run, and counts what a scan would have counted: since regions lie apart, no repair moves a word that is met later.
pub(crate) fn mend_words(bytes: &mut [u8], header: Header) -> Option<EccReport>
    requires { Mendable header bytes.old }
    ensures leaves { bytes.new ≡ mend_words bytes.old }
    ensures tells { as_scan result ≡ scan bytes.old }
{
    let mut room = EMPTY_TABLE;
    fill_check_table(&mut room);
    let table = CheckTable::of(&room);
    let mut total = None;
    for i in 0..header.region_count {
        let found = correct_region(table, bytes, header, i, true);
        total = together(total, found);
    }
    total
}
