// (72,64) Hsiao SECDED, after ecc.rs: one check byte for each 64-bit word, in a plane beside the data.
#![tactic(auto)]

mod check_table;

ghost use Rattle.std.specs.Prelude.{◌≡◌, ◌&&◌, ◌-◌, ◌*◌, ◌≤◌, eqb, ltb, length};
ghost use Rattle.model.specs.Parity.{columns, find, check_of, class_of, flipped_at, outcome_as, outcome, plane_kind};
ghost use Rattle.model.specs.Scan.{is_corrected, is_uncorrectable, slice_words, slice_word, slice_scan};
ghost use Rattle.ecc.specs.Answers.{as_outcome, as_word, as_report};

pub use check_table::{
    CheckTable, EMPTY_TABLE, check_byte_with, decode_word_with, fill_check_table, plane_scan_with,
};

// Number of check bits per word.
pub const CHECK_BITS: usize = 8;

// High bit that marks a kind as the parity plane of the kind below it.
pub const ECC_KIND_BIT: u16 = 0x8000;

pub fn plane_kind_for(kind: u16) -> u16
    ensures { result ≡ plane_kind kind }
{
    kind | ECC_KIND_BIT
}

// 64 data columns, then 8 check columns.
const COLUMNS: [u8; 64 + CHECK_BITS] = [
    7, 11, 13, 14, 19, 21, 22, 25, 26, 28, 35, 37, 38, 41, 42, 44, 49, 50, 52, 56, 67, 69, 70, 73,
    74, 76, 81, 82, 84, 88, 97, 98, 100, 104, 112, 131, 133, 134, 137, 138, 140, 145, 146, 148,
    152, 161, 162, 164, 168, 176, 193, 194, 196, 200, 208, 224, 31, 47, 55, 59, 61, 62, 79, 87, 1,
    2, 4, 8, 16, 32, 64, 128,
];

// The exclusive-or of the columns of the set bits.
pub fn check_byte(data: u64) -> u8
    ensures { result ≡ check_of «data» }
{
    let table = COLUMNS;
    let mut s: u8 = 0;
    for i in 0..64usize {
        // Bit i out of its byte: on bytes the compiler takes sixteen columns at once.
        let byte = ((data >> (i / 8 * 8)) % 256) as u8;
        if (byte >> (i % 8)) % 2 == 1 {
            s ^= table[i];
        }
    }
    s
}

// What a word and its check byte say.
#[derive(Clone, Copy, Debug, PartialEq, Eq)]
pub enum WordStatus {
    Clean(u64),
    Corrected(u64),
    Uncorrectable,
}

// The place of the syndrome among the columns. The loop always runs to its end, which is compiled to wide compares; `position` would
// leave it at the column, and jump for each.
fn column_of(syndrome: u8) -> Option<usize>
    ensures { result ≡ find syndrome columns }
{
    let table = COLUMNS;
    let mut left: u8 = 0;
    for i in 0..72u8 {
        if table[i as usize] == syndrome {
            left |= 72 - i;
        }
    }
    if left == 0 {
        return None;
    }
    Some(72 - (left as usize))
}

// The one bit of the 72 whose flip leaves this syndrome, which is not 0.
#[tactic(auto, unfolding(model::specs::Parity::class_of, model::specs::Parity::is_odd_lem))]
fn flipped_bit(syndrome: u8) -> Option<usize>
    requires { syndrome ≡ 0 → ⊥ }
    ensures { class_of syndrome ≡ flipped_at result }
{
    if u8::count_ones(syndrome) % 2 == 0 {
        return None;
    }
    column_of(syndrome)
}

// What a syndrome says of a word.
#[tactic(auto, unfolding(model::specs::Parity::class_of, model::specs::Parity::flip_word))]
fn status_of(data: u64, syndrome: u8) -> WordStatus
    ensures { as_outcome result ≡ outcome_as (class_of syndrome) «data» }
{
    if syndrome == 0 {
        return WordStatus::Clean(data);
    }
    match flipped_bit(syndrome) {
        Some(i) if i < 64 => WordStatus::Corrected(data ^ (1u64 << i)),
        // The flipped bit is in the check byte; the data is right.
        Some(_) => WordStatus::Corrected(data),
        None => WordStatus::Uncorrectable,
    }
}

#[tactic(auto, unfolding(model::specs::Parity::outcome, model::specs::Parity::decode, model::specs::Parity::syndrome))]
pub fn decode_word(data: u64, check: u8) -> WordStatus
    ensures { as_outcome result ≡ outcome «data» check }
{
    status_of(data, check_byte(data) ^ check)
}

// What a scan found: words examined, words with a corrected fault, words that no single flipped bit explains.
#[derive(Clone, Copy, Debug, Default, PartialEq, Eq)]
pub struct EccReport {
    pub words: usize,
    pub corrected: usize,
    pub uncorrectable: usize,
}

impl EccReport {
    // Every word's syndrome is 0. That is no proof that the words are undamaged: four flipped bits can cancel out.
    pub fn is_clean(self) -> bool
        ensures { result ≡ eqb self.corrected 0 && eqb self.uncorrectable 0 }
    {
        self.corrected == 0 && self.uncorrectable == 0
    }

    // There is damage that can be repaired.
    pub fn needs_scrub(self) -> bool
        ensures { result ≡ ltb 0 self.corrected }
    {
        self.corrected > 0
    }
}

// How many words have their byte: the whole words of the data, or the bytes of the plane if those are fewer.
#[tactic(auto, unfolding(model::specs::Scan::slice_words))]
fn plane_words(parity: &[u8], data: &[u8]) -> usize
    ensures { (result ≡ slice_words «data».now parity.now)
        × (result * 8 ≤ length «data».now) × (result ≤ length parity.now) }
{
    (data.len() / 8).min(parity.len())
}

// Word `index` of the data with byte `index` of its plane; nothing where the index lies outside the data or the plane.
pub fn plane_word(parity: &[u8], data: &[u8], index: usize) -> Option<WordStatus>
    ensures { as_word result ≡ slice_word «data».now parity.now index }
{
    if index >= plane_words(parity, data) {
        return None;
    }
    Some(decode_word(scalar::u64_or_zero(data, 8 * index), parity[index]))
}

// 1 if the syndrome, which is not 0, is a column, so that the word is corrected; 0 if it is uncorrectable.
fn one_if_corrected(syndrome: u8) -> usize
    requires { syndrome ≡ 0 → ⊥ }
    ensures { (result ≡ is_corrected (class_of syndrome)) × (1 - result ≡ is_uncorrectable (class_of syndrome)) × (result ≤ 1) }
{
    usize::from(flipped_bit(syndrome).is_some())
}

// Every word of the data that has its byte in the plane, by a table of its own.
pub fn plane_scan(parity: &[u8], data: &[u8]) -> EccReport
    ensures { as_report result ≡ slice_scan «data».now parity.now }
{
    let mut room = EMPTY_TABLE;
    fill_check_table(&mut room);
    CheckTable::of(&room).plane_scan(parity, data)
}
