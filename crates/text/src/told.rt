// The lines on an image, from the start of a buffer on. Each function gives the number of their bytes. (FORMAT 11, 14)
ghost use Rattle.std.specs.Prelude.{◌≡◌, [], ◌∷◌, ◌++◌, ◌+◌, ◌≤◌, length};
ghost use Rattle.std.proofs.lemmas.List.Edits.{sets};
ghost use Rattle.io.specs.Counts.{IsPrefixLen};
ghost use Rattle.put.specs.Put.{Put};
ghost use Rattle.model.specs.Programs.{ecc_line, lines, line_of};
ghost use Rattle.scan.specs.Answers.{as_scan};
ghost use Rattle.findings.specs.Answers.{as_found, as_outcome};
ghost use Rattle.text.specs.Told.{prefix, first_line, file_lines, file_report, uncorrectable_lines, mend_text};

use crate::line::{put_ecc, put_line_feed, put_regions, put_rejected};
use ecc::EccReport;
use findings::{Findings, Rejected};
use mending::Mending;
use paths::LONGEST_NAME;
use put::{put_bytes, put_field};

// `name` and `several` go together since the public function `file_report`, and its definition, take both.
fn put_prefix(out: &mut [u8], at: usize, name: &[u8], several: bool) -> usize
    requires { at + length name.now + 2 ≤ length out.old }
    ensures is { Put out.old at (prefix name.now several) result out.new }
    ensures few { result ≤ at + length name.now + 2 }
{
    if several {
        let colon = put_bytes(out, at, name);
        put_bytes(out, colon, b": ")
    } else {
        at
    }
}

// The first line of the report, without its line feed.
fn put_first(out: &mut [u8], at: usize, found: Result<Findings, Rejected>) -> usize
    requires { at + 49 ≤ length out.old }
    ensures is { Put out.old at (first_line (as_found found)) result out.new }
    ensures few { result ≤ at + 49 }
{
    match found {
        Ok(f) => put_regions(out, at, f.regions, f.needs_scrub),
        Err(rejected) => put_rejected(out, at, rejected),
    }
}

// The report's second line, with the file's name before it where there are several, and its line feed.
fn put_second(
    out: &mut [u8],
    at: usize,
    name: &[u8],
    several: bool,
    report: Option<EccReport>,
) -> usize
    requires { at + length name.now + 69 ≤ length out.old }
    ensures is { Put out.old at (lines ((prefix name.now several ++ ecc_line (as_scan report)) ∷ [])) result out.new }
    ensures few { result ≤ at + length name.now + 69 }
{
    let start = put_prefix(out, at, name, several);
    let end = put_ecc(out, start, report);
    put_line_feed(out, end)
}

pub(crate) fn put_report(
    out: &mut [u8],
    name: &[u8],
    several: bool,
    found: Result<Findings, Rejected>,
) -> usize
    requires { length name.now + length name.now + 121 ≤ length out.old }
    ensures is { Put out.old 0 (file_lines name.now several (as_found found)) result out.new }
    ensures few { result ≤ length name.now + length name.now + 121 }
{
    let start = put_prefix(out, 0, name, several);
    let end = put_first(out, start, found);
    let second = put_line_feed(out, end);
    match found {
        Ok(f) => put_second(out, second, name, several, f.report),
        Err(_) => second,
    }
}

// The report's lines on a file, each behind the file's name where there are several.
pub fn file_report(
    name: &[u8],
    several: bool,
    found: Result<Findings, Rejected>,
    out: &mut [u8; 8448],
) -> usize
    ensures is { result ≡ length (file_report name.now several (as_found found)) }
    ensures leaves { out.new ≡ sets out.old 0 (file_report name.now several (as_found found)) }
    ensures fits { IsPrefixLen result out.new }
{
    // 0, and no None: the clause `is` says the length for such a name too.
    if name.len() > LONGEST_NAME {
        return 0;
    }
    put_report(out, name, several, found)
}

// The line on an image that scrub mends, refuses or finds too long. No line shows the mended bytes: [] stands for them.
pub(crate) fn put_outcome(out: &mut [u8], outcome: Result<Mending, Rejected>) -> usize
    requires { 50 ≤ length out.old }
    ensures is { Put out.old 0 (lines (line_of (as_outcome outcome []) ∷ [])) result out.new }
    ensures few { result ≤ 50 }
{
    let end = put_said(out, outcome);
    put_line_feed(out, end)
}

fn put_said(out: &mut [u8], outcome: Result<Mending, Rejected>) -> usize
    requires { 49 ≤ length out.old }
    ensures is { Put out.old 0 (line_of (as_outcome outcome [])) result out.new }
    ensures few { result ≤ 49 }
{
    match outcome {
        Ok(mending) => put_field(out, 0, b"stored ", mending.stored as u64),
        Err(rejected) => put_rejected(out, 0, rejected),
    }
}

fn put_uncorrectable_line(out: &mut [u8], at: usize, uncorrectable: usize) -> usize
    requires { at + 35 ≤ length out.old }
    ensures is { Put out.old at (lines (uncorrectable_lines uncorrectable)) result out.new }
    ensures few { result ≤ at + 35 }
{
    if uncorrectable > 0 {
        let end = put_field(out, at, b"uncorrectable ", uncorrectable as u64);
        put_line_feed(out, end)
    } else {
        at
    }
}

// What the command says of a mended image: scrub's line, and where words remain uncorrectable, how many.
pub fn mend_report(outcome: Result<Mending, Rejected>, out: &mut [u8; 128]) -> usize
    ensures is { result ≡ length (mend_text (as_outcome outcome [])) }
    ensures leaves { out.new ≡ sets out.old 0 (mend_text (as_outcome outcome [])) }
    ensures fits { IsPrefixLen result out.new }
{
    let second = put_outcome(out, outcome);
    match outcome {
        Ok(mending) => {
            put_uncorrectable_line(out, second, findings::uncorrectable_in(mending.report))
        }
        Err(_) => second,
    }
}
