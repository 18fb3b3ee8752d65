// The words of a protected region corrected in place, one by one: by themselves, as scrub does, or with their check bytes, as mend
// does. (FORMAT 8, 10)
#![tactic(auto)]

ghost use Rattle.std.specs.Prelude.{◌≡◌, cond, ◌+◌, ◌*◌, ◌^◌, ◌<◌, ◌≤◌, length, set};
ghost use Rattle.model.specs.Bytes.{at, le_bytes, word_at};
ghost use Rattle.model.specs.Parity.{check_of, outcome};
ghost use Rattle.model.specs.Scan.{codewords_in, report};
ghost use Rattle.ecc.specs.Answers.{as_outcome, as_report};
ghost use Rattle.scan.specs.Runs.{codewords_of, visits_at, Fits};
ghost use Rattle.scan.specs.Answers.{as_scan};
ghost use Rattle.scan.specs.Tally.{reported, or_zeros, Room, report_on};
ghost use Rattle.model.specs.Steps.{plus};
ghost use Rattle.correcting.specs.Correct.{correct_at, correct_all, met};

use ecc::{CheckTable, EccReport, WordStatus};
use put::put_number;
use scalar::u64_or_zero;
use scan::{ProtectedRun, count_word, protected_run_at};
use view::Header;

// The eight bytes of a word, lent to be written.
#[tactic(auto, using(crate::proofs::CorrectLaw::stored_all, model::proofs::BytesLaw::length_le_bytes))]
fn store_word(part: &mut [u8], word: u64)
    requires { length part.old ≡ 8 }
    ensures { part.new ≡ le_bytes 8 word }
{
    put_number(part, 0, word);
}

// Stores the check byte of a word, if asked to. Here and below a flag says so, and no closure: the definitions take the flag too,
// and the clauses of a closure would be those definitions again. It goes along with table and bytes: a struct that lends the bytes
// would owe its facts at each write.
fn store_check(table: CheckTable, bytes: &mut [u8], check: usize, word: u64, with_check: bool)
    requires { check < length bytes.old }
    ensures { bytes.new ≡ cond with_check (set bytes.old check (check_of word)) bytes.old }
{
    if with_check {
        bytes[check] = table.check_byte(word);
    }
}

// Decodes a word with its check byte, and writes it where it was corrected.
fn repair_word(
    table: CheckTable,
    bytes: &mut [u8],
    word: usize,
    check: usize,
    with_check: bool,
) -> WordStatus
    requires { (8 * word + 8 ≤ length bytes.old) × (check < length bytes.old) }
    ensures is { as_outcome result ≡ outcome (word_at bytes.old word) (at bytes.old check) }
    ensures stores { bytes.new ≡ correct_at with_check (record { word = word; check = check }) bytes.old }
{
    // Read as correct_word reads it, so that its check byte is not computed again.
    let start = 8 * word;
    let end = start + 8;
    let data = u64_or_zero(&bytes[start..end], 0);
    let found = bytes[check];
    let status = table.decode_word(data, found);
    match status {
        WordStatus::Clean(_) => {}
        WordStatus::Corrected(fixed) => {
            store_check(table, bytes, check, fixed, with_check);
            store_word(&mut bytes[start..end], fixed);
        }
        WordStatus::Uncorrectable => {}
    }
    status
}

// Repairs a word, and adds it to a report. A clean word, which nearly every one is, is decoded no further, and counted where it is
// told, so that the compiler leads it straight to the next.
fn correct_word(
    table: CheckTable,
    bytes: &mut [u8],
    word: usize,
    check: usize,
    with_check: bool,
    report: EccReport,
) -> EccReport
    requires { (8 * word + 8 ≤ length bytes.old) × (check < length bytes.old) × Room 1 (as_report report) }
    ensures is { as_report result ≡ plus (as_report report) (report_on (outcome (word_at bytes.old word) (at bytes.old check))) }
    ensures stores { bytes.new ≡ correct_at with_check (record { word = word; check = check }) bytes.old }
{
    // Read off its own eight bytes, a word is not held against the image's length again.
    let start = 8 * word;
    let data = u64_or_zero(&bytes[start..start + 8], 0);
    let found = bytes[check];
    let expected = table.check_byte(data);
    if expected == found {
        return count_word(report, WordStatus::Clean(data));
    }
    let status = repair_word(table, bytes, word, check, with_check);
    count_word(report, status)
}

// Corrects the words of a run, ascending, and counts them. Each is read as it then stands.
fn correct_run(
    table: CheckTable,
    bytes: &mut [u8],
    run: ProtectedRun,
    with_check: bool,
) -> EccReport
    requires { Fits bytes.old run }
    ensures leaves { bytes.new ≡ correct_all with_check (codewords_of run) bytes.old }
    ensures tells { as_report result ≡ report (met with_check bytes.old (codewords_of run)) }
{
    let mut report = EccReport::default();
    for k in 0..run.words {
        let (word, check) = (run.word + k, run.check + k);
        report = correct_word(table, bytes, word, check, with_check, report);
    }
    report
}

// Corrects the protected run of entry i of the image as it stands, and says what was met; nothing where the entry has no run.
pub fn correct_region(
    table: CheckTable,
    bytes: &mut [u8],
    header: Header,
    i: u16,
    with_check: bool,
) -> Option<EccReport>
    ensures leaves { bytes.new ≡ correct_all with_check (codewords_in (visits_at header.region_count bytes.old i)) bytes.old }
    ensures tells { as_scan result ≡ reported (visits_at header.region_count bytes.old i) (met with_check bytes.old (codewords_in (visits_at header.region_count bytes.old i))) }
    ensures few { (or_zeros (as_scan result)).words < 2 ^ 32 }
{
    let run = protected_run_at(bytes, header, i)?;
    Some(correct_run(table, bytes, run, with_check))
}
