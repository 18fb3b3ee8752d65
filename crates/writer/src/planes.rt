// The planes of a plan's image, put in the order of their rows. (FORMAT 9)
ghost use Rattle.std.specs.Prelude.{◌≡◌, ◌+◌, ◌*◌, ◌/◌, ◌≤◌, length};
ghost use Rattle.model.specs.Writer.{row_words_lem, plane_words, checks, plane_bytes, planes_bytes};
ghost use Rattle.plan.specs.Rows.{as_row, as_plan};
ghost use Rattle.put.specs.Put.{Put};

use ecc::check_byte;
use layout::WORD;
use plan::Row;
use put::put_zeros;
use scalar::u64_or_zero;

// All planes, in the order of their rows.
pub(crate) fn put_planes(out: &mut [u8], at: usize, rows: &[Row], payload: &[u8]) -> usize
    requires room { at + length (planes_bytes (as_plan rows.now) payload.now) ≤ length out.old }
    requires full { length payload.now ≡ 8 * row_words_lem (as_plan rows.now) }
    ensures { Put out.old at (planes_bytes (as_plan rows.now) payload.now) result out.new }
{
    let mut next = at;
    let mut rest = payload;
    for row in rows {
        let (words, behind) = rest.split_at(WORD * row.words as usize);
        if row.is_protected() {
            next = put_plane(out, next, *row, words);
        }
        rest = behind;
    }
    next
}

// A plane: the check bytes, and zeros up to a whole word.
fn put_plane(out: &mut [u8], at: usize, row: Row, words: &[u8]) -> usize
    requires room { at + 8 * plane_words (as_row row) ≤ length out.old }
    requires full { length words.now ≡ 8 * row.words }
    ensures { Put out.old at (plane_bytes (as_row row) words.now) result out.new }
{
    let tail = put_checks(out, at, words);
    put_zeros(out, tail, WORD * row.plane_words() - row.words as usize)
}

// The check bytes of whole words.
fn put_checks(out: &mut [u8], at: usize, words: &[u8]) -> usize
    requires { at + length words.now / 8 ≤ length out.old }
    ensures { Put out.old at (checks (length words.now / 8) words.now) result out.new }
{
    for (i, word) in words.chunks_exact(WORD).enumerate() {
        out[at + i] = check_byte(u64_or_zero(word, 0));
    }
    at + words.len() / WORD
}
