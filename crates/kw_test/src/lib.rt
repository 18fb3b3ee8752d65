// What host/compare calls to hold the leaves beside the Rust: each function here hands one of theirs on, with its
// answer as numbers. A `&[u8]` is a pointer and a length to the caller, a `&mut [u64; 2]` one pointer.
#![tactic(auto)]

ghost use Rattle.std.specs.Prelude.{◌≡◌, ◌&&◌, eqb, ltb};
ghost use Rattle.model.specs.Bytes.{read_in, le_bytes};
ghost use Rattle.model.specs.Crc as checksum;
ghost use Rattle.model.specs.Layout.{words_for, header_bytes};
ghost use Rattle.model.specs.Layout as model;
ghost use Rattle.model.specs.Parity.{plane_kind, check_of, outcome};
ghost use Rattle.model.specs.Scan.{slice_word, slice_scan};
ghost use Rattle.ecc.specs.Answers.{as_word};
ghost use Rattle.kw_test.specs.Numbers.{as_numbers, region_numbers, outcome_numbers, word_numbers, count_numbers, answers_numbers};

use ecc::{EccReport, WordStatus};
use layout::Region;
use scalar::{Number, number_at};

mod parts;
mod reader;
mod scans;
mod values;

// {1, the number}, or {0, 0} for nothing. C has no generic functions: here and below each size has a name of its own.
#[unsafe(no_mangle)]
pub extern "C" fn kwt_u8_at(b: &[u8], at: usize, answer: &mut [u64; 2])
    ensures { answer.new ≡ as_numbers (read_in 1 b.now at) }
{
    match number_at::<u8, 1>(b, at) {
        Some(v) => *answer = [1, v as u64],
        None => *answer = [0, 0],
    }
}

#[unsafe(no_mangle)]
pub extern "C" fn kwt_u16_at(b: &[u8], at: usize, answer: &mut [u64; 2])
    ensures { answer.new ≡ as_numbers (read_in 2 b.now at) }
{
    match number_at::<u16, 2>(b, at) {
        Some(v) => *answer = [1, v as u64],
        None => *answer = [0, 0],
    }
}

#[unsafe(no_mangle)]
pub extern "C" fn kwt_u32_at(b: &[u8], at: usize, answer: &mut [u64; 2])
    ensures { answer.new ≡ as_numbers (read_in 4 b.now at) }
{
    match number_at::<u32, 4>(b, at) {
        Some(v) => *answer = [1, v as u64],
        None => *answer = [0, 0],
    }
}

#[unsafe(no_mangle)]
pub extern "C" fn kwt_u64_at(b: &[u8], at: usize, answer: &mut [u64; 2])
    ensures { answer.new ≡ as_numbers (read_in 8 b.now at) }
{
    match number_at::<u64, 8>(b, at) {
        Some(v) => *answer = [1, v as u64],
        None => *answer = [0, 0],
    }
}

#[unsafe(no_mangle)]
pub extern "C" fn kwt_u8_bytes(v: u8, out: &mut [u8; 1])
    ensures { out.new ≡ le_bytes 1 v }
{
    *out = v.to_bytes();
}

#[unsafe(no_mangle)]
pub extern "C" fn kwt_u16_bytes(v: u16, out: &mut [u8; 2])
    ensures { out.new ≡ le_bytes 2 v }
{
    *out = v.to_bytes();
}

#[unsafe(no_mangle)]
pub extern "C" fn kwt_u32_bytes(v: u32, out: &mut [u8; 4])
    ensures { out.new ≡ le_bytes 4 v }
{
    *out = v.to_bytes();
}

#[unsafe(no_mangle)]
pub extern "C" fn kwt_u64_bytes(v: u64, out: &mut [u8; 8])
    ensures { out.new ≡ le_bytes 8 v }
{
    *out = v.to_bytes();
}

#[unsafe(no_mangle)]
pub extern "C" fn kwt_maj3(a: u8, b: u8, c: u8) -> u8
    ensures { result ≡ model.maj3 a b c }
{
    scalar::maj3(a, b, c)
}

#[unsafe(no_mangle)]
pub extern "C" fn kwt_crc32(bytes: &[u8]) -> u32
    ensures { result ≡ checksum.crc32 bytes.now }
{
    crc::crc32(bytes)
}

#[unsafe(no_mangle)]
pub extern "C" fn kwt_words_for(bytes: usize, answer: &mut [u64; 2])
    ensures { answer.new ≡ as_numbers (words_for bytes) }
{
    match layout::words_for(bytes) {
        Some(n) => *answer = [1, n as u64],
        None => *answer = [0, 0],
    }
}

#[unsafe(no_mangle)]
pub extern "C" fn kwt_header_bytes(count: usize, answer: &mut [u64; 2])
    ensures { answer.new ≡ as_numbers (header_bytes count) }
{
    match layout::header_bytes(count) {
        Some(n) => *answer = [1, n as u64],
        None => *answer = [0, 0],
    }
}

// {byte offset, byte length, encrypted, a plane, flagged 2}, a yes as 1.
#[unsafe(no_mangle)]
pub extern "C" fn kwt_region(
    kind: u16,
    flags: u16,
    word_offset: u32,
    word_length: u32,
    covers: u16,
    answer: &mut [u64; 5],
)
    ensures { answer.new ≡ region_numbers flags word_offset word_length }
{
    let r = Region {
        kind,
        flags,
        word_offset,
        word_length,
        covers,
    };
    *answer = [
        r.byte_offset() as u64,
        r.byte_length() as u64,
        r.is_encrypted() as u64,
        r.is_ecc_plane() as u64,
        r.has_ecc() as u64,
    ];
}

#[unsafe(no_mangle)]
pub extern "C" fn kwt_plane_kind_for(kind: u16) -> u16
    ensures { result ≡ plane_kind kind }
{
    ecc::plane_kind_for(kind)
}

#[unsafe(no_mangle)]
pub extern "C" fn kwt_check_byte(data: u64) -> u8
    ensures { result ≡ check_of «data» }
{
    ecc::check_byte(data)
}

// {0, the word} clean, {1, the word} corrected, {2, 0} uncorrectable.
#[unsafe(no_mangle)]
pub extern "C" fn kwt_decode_word(data: u64, check: u8, answer: &mut [u64; 2])
    ensures { answer.new ≡ outcome_numbers (outcome «data» check) }
{
    match ecc::decode_word(data, check) {
        WordStatus::Clean(w) => *answer = [0, w],
        WordStatus::Corrected(w) => *answer = [1, w],
        WordStatus::Uncorrectable => *answer = [2, 0],
    }
}

fn word_numbers(word: Option<WordStatus>) -> [u64; 3]
    ensures { result ≡ word_numbers (as_word word) }
{
    match word {
        Some(s) => match s {
            WordStatus::Clean(w) => [1, 0, w],
            WordStatus::Corrected(w) => [1, 1, w],
            WordStatus::Uncorrectable => [1, 2, 0],
        },
        None => [0, 0, 0],
    }
}

// {1, the two numbers of a decoded word}, or {0, 0, 0} for nothing.
#[unsafe(no_mangle)]
pub extern "C" fn kwt_plane_word(parity: &[u8], data: &[u8], index: usize, answer: &mut [u64; 3])
    ensures { answer.new ≡ word_numbers (slice_word «data».now parity.now index) }
{
    *answer = word_numbers(ecc::plane_word(parity, data, index));
}

// {words, corrected, uncorrectable}
#[unsafe(no_mangle)]
pub extern "C" fn kwt_plane_scan(parity: &[u8], data: &[u8], answer: &mut [u64; 3])
    ensures { answer.new ≡ count_numbers (slice_scan «data».now parity.now) }
{
    let r = ecc::plane_scan(parity, data);
    *answer = [r.words as u64, r.corrected as u64, r.uncorrectable as u64];
}

// {is clean, needs scrub} of a report, a yes as 1.
#[unsafe(no_mangle)]
pub extern "C" fn kwt_report(
    words: usize,
    corrected: usize,
    uncorrectable: usize,
    answer: &mut [u64; 2],
)
    ensures { answer.new ≡ answers_numbers (eqb corrected 0 && eqb uncorrectable 0) (ltb 0 corrected) }
{
    let r = EccReport {
        words,
        corrected,
        uncorrectable,
    };
    *answer = [r.is_clean() as u64, r.needs_scrub() as u64];
}
