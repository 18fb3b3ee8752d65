// What a scan, scrub or mend has counted so far: every counter is added to here, and nowhere else. (FORMAT 7, 8, 10)
ghost use Rattle.std.specs.Prelude.{◌≡◌};
ghost use Rattle.model.specs.Steps.{plus};
ghost use Rattle.ecc.specs.Answers.{as_outcome, as_report};
ghost use Rattle.scan.specs.Answers.{as_scan};
ghost use Rattle.scan.specs.Tally.{together, marked, or_zeros, report_on, Bounded, Room};

use ecc::{EccReport, WordStatus};

// Notes whether a region was visited. With one that was, there is a report, even without words.
pub fn visit(total: Option<EccReport>, visited: bool) -> Option<EccReport>
    ensures { as_scan result ≡ marked (as_scan total) visited }
{
    match (total, visited) {
        (None, true) => Some(EccReport::default()),
        _ => total,
    }
}

fn sum(a: EccReport, b: EccReport) -> EccReport
    requires { Room b.words (as_report a) × Bounded (as_report b) }
    ensures { as_report result ≡ plus (as_report a) (as_report b) }
{
    EccReport {
        words: a.words + b.words,
        corrected: a.corrected + b.corrected,
        uncorrectable: a.uncorrectable + b.uncorrectable,
    }
}

// Two reports together; nothing where neither of the two visited a region.
pub fn together(a: Option<EccReport>, b: Option<EccReport>) -> Option<EccReport>
    requires { Room (or_zeros (as_scan b)).words (or_zeros (as_scan a)) × Bounded (or_zeros (as_scan b)) }
    ensures { as_scan result ≡ together (as_scan a) (as_scan b) }
{
    match (a, b) {
        (None, b) => b,
        (a, None) => a,
        (Some(a), Some(b)) => Some(sum(a, b)),
    }
}

// Adds one word to a report. Each case has sums of its own: to add a count of 0 or 1 to each would take longer than to decode the word.
pub fn count_word(report: EccReport, status: WordStatus) -> EccReport
    requires { Room 1 (as_report report) }
    ensures { as_report result ≡ plus (as_report report) (report_on (as_outcome status)) }
{
    match status {
        WordStatus::Clean(_) => EccReport {
            words: report.words + 1,
            ..report
        },
        WordStatus::Corrected(_) => EccReport {
            words: report.words + 1,
            corrected: report.corrected + 1,
            ..report
        },
        WordStatus::Uncorrectable => EccReport {
            words: report.words + 1,
            uncorrectable: report.uncorrectable + 1,
            ..report
        },
    }
}
