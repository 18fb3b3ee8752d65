// What is wrong with an image, and the exit status that says so. (FORMAT 14)
#![tactic(auto)]

ghost use Rattle.std.specs.Prelude.{◌≡◌, max};
ghost use Rattle.scan.specs.Answers.{as_scan};
ghost use Rattle.exit_status.specs.Verdicts.{verdict_on, damaged_in, verdict_if, report_verdict, mending_verdict, writes_file, status_of};

use ecc::EccReport;
use error::Refusal;
use findings::{Findings, Rejected};
use mending::Mending;

#[derive(Clone, Copy, Debug, PartialEq, Eq)]
pub enum Verdict {
    Sound,
    Damaged,
    TooLong,
    Refused(Refusal),
}

impl From<Rejected> for Verdict {
    ghost from_gives = { λ r v. v ≡ verdict_on r };

    fn from(rejected: Rejected) -> Verdict {
        match rejected {
            Rejected::TooLong => Verdict::TooLong,
            Rejected::Refused(refusal) => Verdict::Refused(refusal),
        }
    }
}

fn is_damaged(report: Option<EccReport>) -> bool
    ensures { result ≡ damaged_in (as_scan report) }
{
    report.is_some_and(|counts| counts.corrected > 0 || counts.uncorrectable > 0)
}

fn verdict_if(damaged: bool) -> Verdict
    ensures { result ≡ verdict_if damaged }
{
    if damaged {
        Verdict::Damaged
    } else {
        Verdict::Sound
    }
}

pub fn report_verdict(found: Result<Findings, Rejected>) -> Verdict
    ensures { result ≡ report_verdict found }
{
    match found {
        Ok(f) => verdict_if(f.needs_scrub || is_damaged(f.report)),
        Err(rejected) => rejected.into(),
    }
}

// What is wrong with an image once it is mended.
pub fn mending_verdict(outcome: Result<Mending, Rejected>) -> Verdict
    ensures { result ≡ mending_verdict outcome }
{
    match outcome {
        Ok(mending) => verdict_if(findings::uncorrectable_in(mending.report) > 0),
        Err(rejected) => rejected.into(),
    }
}

// Whether there is a file to write: an image that is mended into another, or that mending changed.
pub fn is_written(outcome: Result<Mending, Rejected>, in_place: bool) -> bool
    ensures { result ≡ writes_file outcome in_place }
{
    match outcome {
        Ok(mending) => !in_place || mending.stored > 0,
        Err(_) => false,
    }
}

// A status is the byte that the system takes, and of two the higher counts: numbers, and no enum that would be turned into them.
pub const FAILED: u8 = 3;

pub fn status(verdict: Verdict) -> u8
    ensures { result ≡ status_of verdict }
{
    match verdict {
        Verdict::Sound => 0,
        Verdict::Damaged => 1,
        Verdict::TooLong => 2,
        Verdict::Refused(_) => 2,
    }
}

// Of several files the highest status counts.
pub fn higher(a: u8, b: u8) -> u8
    ensures { result ≡ max a b }
{
    u8::max(a, b)
}
