// One line each, from a place on, without its line feed. Each function gives the place right behind its text. They are no Display:
// `fmt` ensures nothing that a proof can use, and every byte of a line is promised here.
ghost use Rattle.std.specs.Prelude.{Some, ℕ, ◌+◌, ◌≤◌, length};
ghost use Rattle.put.specs.Put.{Put};
ghost use Rattle.model.specs.Programs.{line_feed, too_long_line, refused_line, regions_line, ecc_line};
ghost use Rattle.text.specs.Told.{rejected_line};
ghost use Rattle.ecc.specs.Answers.{as_report};
ghost use Rattle.error.specs.Refused.{number_of, detail_of};
ghost use Rattle.scan.specs.Answers.{as_scan};

use ecc::EccReport;
use error::Refusal;
use findings::Rejected;
use put::{put_bytes, put_field};

fn put_too_long(out: &mut [u8], at: usize) -> usize
    requires { at + 8 ≤ length out.old }
    ensures is { Put out.old at too_long_line result out.new }
    ensures few { result ≤ at + 8 }
{
    put_bytes(out, at, b"too-long")
}

// The room of 49 bytes is asked in three functions here and in told.rt: a struct for one bound would need a law to open it at each write, and be no plainer.
fn put_refused(out: &mut [u8], at: usize, refusal: Refusal) -> usize
    requires { at + 49 ≤ length out.old }
    ensures is { Put out.old at (refused_line (number_of refusal) (detail_of refusal)) result out.new }
    ensures few { result ≤ at + 49 }
{
    let detail = put_field(out, at, b"refused ", refusal.number() as u64);
    put_field(out, detail, b" ", refusal.detail())
}

pub(crate) fn put_rejected(out: &mut [u8], at: usize, rejected: Rejected) -> usize
    requires { at + 49 ≤ length out.old }
    ensures is { Put out.old at (rejected_line rejected) result out.new }
    ensures few { result ≤ at + 49 }
{
    match rejected {
        Rejected::TooLong => put_too_long(out, at),
        Rejected::Refused(refusal) => put_refused(out, at, refusal),
    }
}

pub(crate) fn put_regions(out: &mut [u8], at: usize, region_count: u16, needs_scrub: bool) -> usize
    requires { at + 38 ≤ length out.old }
    ensures is { Put out.old at (regions_line region_count needs_scrub) result out.new }
    ensures few { result ≤ at + 38 }
{
    let wanted = put_field(out, at, b"regions ", region_count as u64);
    if needs_scrub {
        put_bytes(out, wanted, b" scrub yes")
    } else {
        put_bytes(out, wanted, b" scrub no")
    }
}

fn put_counts(out: &mut [u8], at: usize, counts: EccReport) -> usize
    requires { at + 66 ≤ length out.old }
    ensures is { Put out.old at (ecc_line (Some (as_report counts))) result out.new }
    ensures few { result ≤ at + 66 }
{
    let corrected = put_field(out, at, b"ecc ", counts.words as u64);
    let uncorrectable = put_field(out, corrected, b" ", counts.corrected as u64);
    put_field(out, uncorrectable, b" ", counts.uncorrectable as u64)
}

pub(crate) fn put_ecc(out: &mut [u8], at: usize, report: Option<EccReport>) -> usize
    requires { at + 66 ≤ length out.old }
    ensures is { Put out.old at (ecc_line (as_scan report)) result out.new }
    ensures few { result ≤ at + 66 }
{
    match report {
        Some(counts) => put_counts(out, at, counts),
        None => put_bytes(out, at, b"ecc none"),
    }
}

pub(crate) fn put_line_feed(out: &mut [u8], at: usize) -> usize
    requires { at + 1 ≤ length out.old }
    ensures is { Put out.old at line_feed result out.new }
    ensures few { result ≤ at + 1 }
{
    put_bytes(out, at, b"\n")
}
