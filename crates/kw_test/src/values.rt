// The methods of tables, pools and planes, each on a value made of the bytes given. No slice can be handed to C, so of a part its
// length and checksum are.
ghost use Rattle.std.specs.Prelude.{◌≡◌, ◌∷◌, [], ◌++◌, length};
ghost use Rattle.bits.specs.Bit.{num};
ghost use Rattle.model.specs.Scan.{slice_word, slice_scan};
ghost use Rattle.model.specs.Views.{part_in_lem, record_count, record_range, range_is_forward, pool_range};
ghost use Rattle.tables.specs.Answers.{as_place};
ghost use Rattle.ecc.specs.Answers.{as_word, as_report};
ghost use Rattle.kw_test.specs.Reader.{part_numbers};
ghost use Rattle.kw_test.specs.Borrowed.{table_of, stride_of, table_numbers, part_answer, plane_answer};

use super::parts::part_numbers;
use super::reader::place_numbers;
use super::word_numbers;
use borrowed::{EccPlane, Pool, RecordTable};
use ecc::{EccReport, WordStatus};
use tables::Place;

fn size_answer(len: usize, empty: bool, stride: usize) -> [u64; 3]
    ensures { result ≡ len ∷ num empty ∷ stride ∷ [] }
{
    [len as u64, empty as u64, stride as u64]
}

fn table_size(bytes: &[u8], stride: usize) -> [u64; 3]
    ensures { result ≡ table_numbers (table_of bytes.now stride) (stride_of bytes.now stride) }
{
    let table = RecordTable::from_bytes(bytes, stride);
    size_answer(table.len(), table.is_empty(), table.stride())
}

fn part_answer(place: Option<Place>, part: &[u8]) -> [u64; 5]
    ensures { result ≡ part_answer (as_place place) part.now }
{
    let p = place_numbers(place);
    let q = part_numbers(part);
    [p[0], p[1], p[2], q[0], q[1]]
}

fn table_record(bytes: &[u8], stride: usize, index: usize) -> [u64; 5]
    ensures { result ≡ part_answer (record_range (length (table_of bytes.now stride)) (stride_of bytes.now stride) index)
        (part_in_lem (table_of bytes.now stride) (record_range (length (table_of bytes.now stride)) (stride_of bytes.now stride) index)) }
{
    let table = RecordTable::from_bytes(bytes, stride);
    part_answer(table.place(index), table.get(index))
}

fn table_forward(bytes: &[u8], stride: usize, at: usize, first: u32, count: u32) -> bool
    ensures { result ≡ range_is_forward (record_count (length (table_of bytes.now stride)) (stride_of bytes.now stride)) at first count }
{
    let table = RecordTable::from_bytes(bytes, stride);
    table.range_is_forward(at, first, count)
}

fn pool_answer<'a>(whole: &'a [u8], place: Option<Place>, part: &'a [u8]) -> [u64; 7]
    ensures { result ≡ part_numbers whole.now ++ part_answer (as_place place) part.now }
{
    let w = part_numbers(whole);
    let p = part_answer(place, part);
    [w[0], w[1], p[0], p[1], p[2], p[3], p[4]]
}

fn pool_part(bytes: &[u8], offset: u32, len: u32) -> [u64; 7]
    ensures { result ≡ part_numbers bytes.now ++ part_answer (pool_range (length bytes.now) offset len) (part_in_lem bytes.now (pool_range (length bytes.now) offset len)) }
{
    let pool = Pool::from_bytes(bytes);
    pool_answer(
        pool.bytes(),
        pool.place(offset, len),
        pool.slice(offset, len),
    )
}

fn plane_answer(parity: &[u8], word: Option<WordStatus>, report: EccReport) -> [u64; 8]
    ensures { result ≡ plane_answer parity.now (as_word word) (as_report report) }
{
    let p = part_numbers(parity);
    let w = word_numbers(word);
    [
        p[0],
        p[1],
        w[0],
        w[1],
        w[2],
        report.words as u64,
        report.corrected as u64,
        report.uncorrectable as u64,
    ]
}

fn plane_facts(parity: &[u8], data: &[u8], index: usize) -> [u64; 8]
    ensures { result ≡ plane_answer parity.now (slice_word «data».now parity.now index) (slice_scan «data».now parity.now) }
{
    let plane = EccPlane::new(parity);
    plane_answer(plane.bytes(), plane.word(data, index), plane.scan(data))
}

// {len, is_empty, stride}; of bytes that are no table of that stride, of the table without bytes.
#[unsafe(no_mangle)]
pub extern "C" fn kwt_borrowed_table(bytes: &[u8], stride: usize, answer: &mut [u64; 3])
    ensures { answer.new ≡ table_numbers (table_of bytes.now stride) (stride_of bytes.now stride) }
{
    *answer = table_size(bytes, stride);
}

// {1, start, end} of a record, or zeros for nothing; {length, CRC-32} of it.
#[unsafe(no_mangle)]
pub extern "C" fn kwt_borrowed_record(
    bytes: &[u8],
    stride: usize,
    index: usize,
    answer: &mut [u64; 5],
)
    ensures { answer.new ≡ part_answer (record_range (length (table_of bytes.now stride)) (stride_of bytes.now stride) index)
        (part_in_lem (table_of bytes.now stride) (record_range (length (table_of bytes.now stride)) (stride_of bytes.now stride) index)) }
{
    *answer = table_record(bytes, stride, index);
}

#[unsafe(no_mangle)]
pub extern "C" fn kwt_borrowed_forward(
    bytes: &[u8],
    stride: usize,
    at: usize,
    first: u32,
    count: u32,
) -> u32
    ensures { result ≡ num (range_is_forward (record_count (length (table_of bytes.now stride)) (stride_of bytes.now stride)) at first count) }
{
    table_forward(bytes, stride, at, first, count) as u32
}

// {length, CRC-32} of the pool; {1, start, end} of a part, or zeros for nothing; {length, CRC-32} of it.
#[unsafe(no_mangle)]
pub extern "C" fn kwt_borrowed_pool(bytes: &[u8], offset: u32, len: u32, answer: &mut [u64; 7])
    ensures { answer.new ≡ part_numbers bytes.now ++ part_answer (pool_range (length bytes.now) offset len) (part_in_lem bytes.now (pool_range (length bytes.now) offset len)) }
{
    *answer = pool_part(bytes, offset, len);
}

// {length, CRC-32} of the plane; {1, how, word} or zeros of a word; {words, corrected, uncorrectable}.
#[unsafe(no_mangle)]
pub extern "C" fn kwt_borrowed_plane(
    parity: &[u8],
    data: &[u8],
    index: usize,
    answer: &mut [u64; 8],
)
    ensures { answer.new ≡ plane_answer parity.now (slice_word «data».now parity.now index) (slice_scan «data».now parity.now) }
{
    *answer = plane_facts(parity, data, index);
}
