// The C API: what firmware calls (include/kw.h). A `&[u8]` is a pointer and a length to C, a `&mut [u64; 4]` one pointer. Every number
// of an answer is written at every call; nothing is allocated.
#![tactic(auto)]

mod regions;

ghost use Rattle.std.specs.Prelude.{◌≡◌, length};
ghost use Rattle.model.specs.Parse.{parse};
ghost use Rattle.model.specs.Scan.{scan};
ghost use Rattle.model.specs.Scrub.{scrub};
ghost use Rattle.model.specs.Mend.{mend};
ghost use Rattle.model.specs.Writer as model;
ghost use Rattle.plan.specs.Rows.{as_plan};
ghost use Rattle.writer.specs.Answers.{as_written, bytes_after};
ghost use Rattle.mending.specs.Answers.{left_by};
ghost use Rattle.scan.specs.Answers.{as_scan};
ghost use Rattle.kw.specs.Writes.{number_in, answer_in, write_number, write_answer};
ghost use Rattle.kw.specs.Numbers.{refusal_number, parse_numbers, scan_numbers, report_numbers, mending_numbers, mend_number, mend_numbers};

use ecc::EccReport;
use error::Refusal;
use mending::Mending;
use plan::Row;

// {1, words, corrected, uncorrectable}, or zeros for nothing.
fn report_numbers(scan: Option<EccReport>) -> [u64; 4]
    ensures { result ≡ report_numbers (as_scan scan) }
{
    match scan {
        Some(r) => [
            1,
            r.words as u64,
            r.corrected as u64,
            r.uncorrectable as u64,
        ],
        None => [0, 0, 0, 0],
    }
}

// 0 and {number of regions, scrub wanted}, or a refusal's number and {detail, 0}.
#[unsafe(no_mangle)]
pub extern "C" fn kw_parse(image: &[u8], answer: &mut [u64; 2]) -> u32
    ensures is { result ≡ refusal_number (parse image.now) }
    ensures answers { answer.new ≡ parse_numbers (parse image.now) }
{
    match view::parse(image) {
        Ok(h) => {
            *answer = [h.region_count as u64, h.needs_scrub() as u64];
            0
        }
        Err(r) => {
            *answer = [r.detail(), 0];
            r.number()
        }
    }
}

// 0 and the whole scan's report or nothing, or a refusal's number and {detail, 0, 0, 0}.
#[unsafe(no_mangle)]
pub extern "C" fn kw_scan(image: &[u8], answer: &mut [u64; 4]) -> u32
    ensures is { result ≡ refusal_number (parse image.now) }
    ensures answers { answer.new ≡ scan_numbers (parse image.now) (scan image.now) }
{
    match view::parse(image) {
        Ok(h) => {
            *answer = report_numbers(scan::verify_all(image, h));
            0
        }
        Err(r) => {
            *answer = [r.detail(), 0, 0, 0];
            r.number()
        }
    }
}

// 0, and scrub's report or nothing.
#[unsafe(no_mangle)]
pub extern "C" fn kw_scrub(image: &mut [u8], answer: &mut [u64; 4]) -> u32
    ensures is { result ≡ 0 }
    ensures answers { answer.new ≡ report_numbers (scrub image.old).report }
    ensures leaves { image.new ≡ (scrub image.old).image }
{
    *answer = report_numbers(scrubbing::scrub(image));
    0
}

// {1, words, corrected, uncorrectable, stored, whole}, with zeros for the first four where there is no report.
fn mending_numbers(m: Mending) -> [u64; 6]
    ensures { result ≡ mending_numbers (as_scan m.report) m.stored m.whole }
{
    let stored = m.stored as u64;
    let whole = m.whole as u64;
    let report = m.report;
    let n = report_numbers(report);
    [n[0], n[1], n[2], n[3], stored, whole]
}

// 0 and the report or nothing with what was stored and whether the image is whole, or a refusal's number and {detail, 0, 0, 0, 0, 0}.
#[unsafe(no_mangle)]
pub extern "C" fn kw_mend(image: &mut [u8], answer: &mut [u64; 6]) -> u32
    ensures is { result ≡ mend_number (mend image.old) }
    ensures answers { answer.new ≡ mend_numbers (mend image.old) }
    ensures leaves { image.new ≡ left_by (mend image.old) image.old }
{
    match mending::mend(image) {
        Ok(m) => {
            *answer = mending_numbers(m);
            0
        }
        Err(r) => {
            *answer = [r.detail(), 0, 0, 0, 0, 0];
            r.number()
        }
    }
}

fn write_numbers(res: Result<usize, Refusal>, answer: &mut [u64; 1]) -> u32
    ensures { (result ≡ number_in (as_written res)) × (answer.new ≡ answer_in (as_written res)) }
{
    match res {
        Ok(n) => {
            *answer = [n as u64];
            0
        }
        Err(refusal) => {
            *answer = [refusal.detail()];
            refusal.number()
        }
    }
}

// 0 and {the image's length}, or a refusal's number and {detail}.
#[unsafe(no_mangle)]
pub extern "C" fn kw_write(
    rows: &[Row],
    payload: &[u8],
    out: &mut [u8],
    answer: &mut [u64; 1],
) -> u32
    ensures { (result ≡ write_number (model.write (as_plan rows.now) payload.now (length out.old)))
        × (answer.new ≡ write_answer (model.write (as_plan rows.now) payload.now (length out.old)))
        × (out.new ≡ bytes_after (model.write (as_plan rows.now) payload.now (length out.old)) out.old) }
{
    let result = writer::write(rows, payload, out);
    write_numbers(result, answer)
}
