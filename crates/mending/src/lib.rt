// Mend: what the header's votes and the parity decide is repaired in place, and nothing else moves. (FORMAT 10)
#![tactic(auto)]

mod header;
mod words;

ghost use Rattle.std.specs.Prelude.{◌≡◌};
ghost use Rattle.model.specs.Mend as model;
ghost use Rattle.scan.specs.Answers.{as_scan};
ghost use Rattle.mending.specs.Answers.{as_mended, as_mending, left_by};
ghost use Rattle.mending.specs.Mendable.{Mendable, Tells};

use ecc::EccReport;
use error::Refusal;
use header::mend_header;
use overlap::check_placement;
use view::Header;
use words::mend_words;

// What was found before anything was written, how many bytes changed, and whether no word is left uncorrectable.
#[derive(Clone, Copy, Debug, PartialEq, Eq)]
pub struct Mending {
    pub report: Option<EccReport>,
    pub stored: usize,
    pub whole: bool,
}

// Whether a report says that no word is uncorrectable; no report does not say so.
fn is_whole(report: Option<EccReport>) -> bool
    ensures { result ≡ model.none_uncorrectable (as_scan report) }
{
    match report {
        Some(counts) => counts.uncorrectable == 0,
        None => false,
    }
}

// Mends an image whose regions lie apart. The words are passed once: the header's votes move none of them.
fn mend_apart(bytes: &mut [u8], header: Header) -> Mending
    requires { Mendable header bytes.old × Tells header bytes.old }
    ensures is { as_mending result bytes.new ≡ model.mend bytes.old }
    ensures leaves { bytes.new ≡ model.mend_bytes bytes.old }
{
    let in_header = mend_header(bytes, header);
    let report = mend_words(bytes, header);
    Mending {
        report,
        stored: in_header + report.unwrap_or_default().corrected,
        whole: is_whole(report),
    }
}

// Repairs what the header's votes and the parity decide, and refuses, with no byte written, where regions overlap.
// The image has to be parsed afresh before it is loaded.
pub fn mend(bytes: &mut [u8]) -> Result<Mending, Refusal>
    ensures is { as_mended result bytes.new ≡ model.mend bytes.old }
    ensures leaves { bytes.new ≡ left_by (model.mend bytes.old) bytes.old }
{
    let header = check_placement(bytes)?;
    Ok(mend_apart(bytes, header))
}
