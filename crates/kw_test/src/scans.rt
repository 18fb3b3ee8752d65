// Scans, and scrub: {1, words, corrected, uncorrectable}, or zeros for nothing.
ghost use Rattle.std.specs.Prelude.{◌≡◌};
ghost use Rattle.model.specs.Scan.{scan_region, scan_in};
ghost use Rattle.model.specs.Scrub as model;
ghost use Rattle.scan.specs.Answers.{as_scan};
ghost use Rattle.kw_test.specs.Reader.{scan_answer, entry_with};

use super::reader::header_of;
use ecc::EccReport;
use layout::Region;

fn scan_numbers(scan: Option<EccReport>) -> [u64; 4]
    ensures { result ≡ scan_answer (as_scan scan) }
{
    match scan {
        Some(r) => [
            1,
            r.words as u64,
            r.corrected as u64,
            r.uncorrectable as u64,
        ],
        None => [0, 0, 0, 0],
    }
}

#[unsafe(no_mangle)]
pub extern "C" fn kwt_verify_region(
    bytes: &[u8],
    count: u16,
    kind: u16,
    flags: u16,
    word_offset: u32,
    word_length: u32,
    covers: u16,
    answer: &mut [u64; 4],
)
    ensures { answer.new ≡ scan_answer (scan_region count bytes.now (entry_with kind flags word_offset word_length covers)) }
{
    let region = Region {
        kind,
        flags,
        word_offset,
        word_length,
        covers,
    };
    *answer = scan_numbers(scan::verify_region(bytes, header_of(count), region));
}

#[unsafe(no_mangle)]
pub extern "C" fn kwt_verify_all(bytes: &[u8], count: u16, answer: &mut [u64; 4])
    ensures { answer.new ≡ scan_answer (scan_in count bytes.now) }
{
    *answer = scan_numbers(scan::verify_all(bytes, header_of(count)));
}

#[unsafe(no_mangle)]
pub extern "C" fn kwt_scrub(bytes: &mut [u8], answer: &mut [u64; 4])
    ensures is { answer.new ≡ scan_answer (model.scrub bytes.old).report }
    ensures leaves { bytes.new ≡ (model.scrub bytes.old).image }
{
    *answer = scan_numbers(scrubbing::scrub(bytes));
}
