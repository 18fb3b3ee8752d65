// Check bytes by a table: entry 256 * k + b is the check byte of the word with byte b in place k and 0 elsewhere. Check bytes are
// linear, so that of a word is the exclusive-or of the entries of its eight bytes.
ghost use Rattle.std.specs.Prelude.{◌≡◌, ◌+◌, ◌*◌, ◌^◌, ◌<◌};
ghost use Rattle.model.specs.Bytes.{at};
ghost use Rattle.model.specs.Parity as model;
ghost use Rattle.model.specs.Scan.{slice_scan};
ghost use Rattle.ecc.specs.Answers.{as_outcome, as_report};
ghost use Rattle.ecc.specs.CheckTable.{IsCheckTable, Filled, entry_for, check_with, outcome_with, slice_scan_with};

use super::{COLUMNS, EccReport, WordStatus, one_if_corrected, plane_words, status_of};

// A table for `fill_check_table` to fill.
pub const EMPTY_TABLE: [u8; 2048] = [0u8; 2048];

// The table of check bytes, in a buffer that is lent: a copy of it is a pointer. Returned by value, the buffer itself would be
// copied by `memcpy`, and firmware may have none.
#[derive(Clone, Copy)]
pub struct CheckTable<'a> {
    entries: &'a [u8; 2048],
    ghost right: { IsCheckTable entries.now },
}

impl<'a> CheckTable<'a> {
    // The table in a buffer that `fill_check_table` filled. It asks no more than to read the buffer, so that one filling serves for many tables.
    pub fn of(entries: &'a [u8; 2048]) -> CheckTable<'a>
        requires { IsCheckTable entries.now }
        ensures { result.entries ≡ entries.entry }
    {
        CheckTable { entries }
    }

    #[tactic(auto, using(crate::proofs::CheckTableLaw::table_check))]
    pub fn check_byte(self, data: u64) -> u8
        ensures { result ≡ model.check_of «data» }
    {
        check_byte_with(self.entries, data)
    }

    #[tactic(auto, using(crate::proofs::CheckTableLaw::table_outcome))]
    pub fn decode_word(self, data: u64, check: u8) -> WordStatus
        ensures { as_outcome result ≡ model.outcome «data» check }
    {
        decode_word_with(self.entries, data, check)
    }

    #[tactic(auto, using(crate::proofs::CheckTableLaw::table_scan))]
    pub fn plane_scan(self, parity: &[u8], data: &[u8]) -> EccReport
        ensures { as_report result ≡ slice_scan «data».now parity.now }
    {
        plane_scan_with(self.entries, parity, data)
    }
}

// Here k is always the place of a byte in a word, below 8: a number that a loop counts, which a type would wrap and unwrap.

// Entries 2^i to 2^(i+1) - 1 of place k: each is the entry 2^i below it, with the column of bit 8k + i put in. Sixteen are made at once.
fn fill_bit(table: &mut [u8; 2048], k: usize, i: usize, column: u8)
    requires { (k < 8) × (i < 8) × (column ≡ at model.columns (8 * k + i)) × Filled (256 * k + 2 ^ i) table.old }
    ensures { Filled (256 * k + 2 ^ (i + 1)) table.new }
{
    let first = 256 * k;
    let count = 1usize << i;
    for j in 0..count {
        table[first + count + j] = table[first + j] ^ column;
    }
}

// The 256 entries of place k.
fn fill_place(table: &mut [u8; 2048], columns: &[u8; 72], k: usize)
    requires { (k < 8) × (columns.now ≡ model.columns) × Filled (256 * k) table.old }
    ensures { Filled (256 * (k + 1)) table.new }
{
    table[256 * k] = 0;
    for i in 0..8usize {
        fill_bit(table, k, i, columns[8 * k + i]);
    }
}

// The whole table, whatever was in it. It takes less than a microsecond: fill it once for many words, and lend it.
#[tactic(auto, using(crate::proofs::CheckTableLaw::all_filled), unfolding(model::specs::Parity::columns))]
pub fn fill_check_table(table: &mut [u8; 2048])
    ensures { IsCheckTable table.new }
{
    // The assignment tells the prover that the table has 2,048 entries; all of them are written below.
    *table = EMPTY_TABLE;
    let columns = COLUMNS;
    for k in 0..8usize {
        fill_place(table, &columns, k);
    }
}

// The entry of the byte in place k.
fn entry_for(table: &[u8; 2048], data: u64, k: usize) -> u8
    requires { k < 8 }
    ensures { result ≡ entry_for table.now «data» k }
{
    table[256 * k + ((data >> (8 * k)) % 256) as usize]
}

// The check byte, by the table. The three functions whose names end in `_with` take any table and promise what that one gives: to
// take a `CheckTable` would ask more of a caller. (docs/DECISIONS.md)
#[tactic(auto, unfolding(crate::specs::CheckTable::check_with, crate::specs::CheckTable::entries_to))]
pub fn check_byte_with(table: &[u8; 2048], data: u64) -> u8
    ensures { result ≡ check_with table.now «data» }
{
    entry_for(table, data, 0)
        ^ entry_for(table, data, 1)
        ^ entry_for(table, data, 2)
        ^ entry_for(table, data, 3)
        ^ entry_for(table, data, 4)
        ^ entry_for(table, data, 5)
        ^ entry_for(table, data, 6)
        ^ entry_for(table, data, 7)
}

// What a word and its check byte say, by the table.
#[tactic(auto, unfolding(crate::specs::CheckTable::outcome_with, crate::specs::CheckTable::decode_with))]
pub fn decode_word_with(table: &[u8; 2048], data: u64, check: u8) -> WordStatus
    ensures { as_outcome result ≡ outcome_with table.now «data» check }
{
    status_of(data, check_byte_with(table, data) ^ check)
}

// Every word of the data that has its byte in the plane, by the table.
pub fn plane_scan_with(table: &[u8; 2048], parity: &[u8], data: &[u8]) -> EccReport
    ensures { as_report result ≡ slice_scan_with table.now «data».now parity.now }
{
    let words = plane_words(parity, data);
    let mut corrected: usize = 0;
    let mut uncorrectable: usize = 0;
    for w in 0..words {
        let word = scalar::u64_or_zero(data, 8 * w);
        let syndrome = check_byte_with(table, word) ^ parity[w];
        // A clean word, which nearly every one is, counts for nothing.
        if syndrome != 0 {
            let one = one_if_corrected(syndrome);
            corrected += one;
            uncorrectable += 1 - one;
        }
    }
    EccReport {
        words,
        corrected,
        uncorrectable,
    }
}
