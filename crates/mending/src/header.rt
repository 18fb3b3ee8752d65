// The header half of mend: every copy becomes the vote. (FORMAT 10)
ghost use Rattle.std.specs.Prelude.{◌≡◌, cond, ◌+◌, ◌*◌, ◌<◌, ◌≤◌, eqb, length, set};
ghost use Rattle.model.specs.Bytes.{at};
ghost use Rattle.model.specs.Mend.{changed};
ghost use Rattle.lemmas.specs.Steps.{copy_vote, copy_votes, mend_header};
ghost use Rattle.mending.specs.Mendable.{Mendable, Tells};

use layout::{DIR_ENTRY_BYTES, DIRECTORY_OFFSET, PROLOGUE_BYTES};
use scalar::maj3;
use view::Header;

// Stores v at place p; the number of bytes that changed.
fn store_byte(bytes: &mut [u8], p: usize, v: u8) -> usize
    requires { p < length bytes.old }
    ensures leaves { bytes.new ≡ set bytes.old p v }
    ensures counts { result ≡ cond (eqb (at bytes.old p) v) 0 1 }
{
    let old = bytes[p];
    bytes[p] = v;
    if old == v { 0 } else { 1 }
}

// Puts the vote on byte j of three copies of k bytes each into all three; the number of bytes that changed.
fn vote_byte(bytes: &mut [u8], base: usize, k: usize, j: usize) -> usize
    requires { (j < k) × (base + 3 * k ≤ length bytes.old) }
    ensures leaves { bytes.new ≡ copy_vote base k j bytes.old }
    ensures counts { result ≡ changed bytes.old bytes.new }
{
    let v = maj3(
        bytes[base + j],
        bytes[base + k + j],
        bytes[base + 2 * k + j],
    );
    let first = store_byte(bytes, base + j, v);
    let second = store_byte(bytes, base + k + j, v);
    let third = store_byte(bytes, base + 2 * k + j, v);
    first + second + third
}

// Puts the vote on each byte of three copies of k bytes into all three; the number of bytes that changed.
fn vote_copies(bytes: &mut [u8], base: usize, k: usize) -> usize
    requires { base + 3 * k ≤ length bytes.old }
    ensures leaves { bytes.new ≡ copy_votes base k k 0 bytes.old }
    ensures counts { result ≡ changed bytes.old bytes.new }
{
    let mut stored: usize = 0;
    for j in 0..k {
        stored += vote_byte(bytes, base, k, j);
    }
    stored
}

// Votes over the copies of the prologue, then over those of the directory; the number of bytes that changed.
fn vote_header(bytes: &mut [u8], header: Header) -> usize
    requires { Mendable header bytes.old }
    ensures leaves { bytes.new ≡ mend_header bytes.old }
    ensures counts { result ≡ changed bytes.old bytes.new }
{
    let prologue = vote_copies(bytes, 0, PROLOGUE_BYTES);
    let directory = vote_copies(
        bytes,
        DIRECTORY_OFFSET,
        DIR_ENTRY_BYTES * (header.region_count as usize),
    );
    prologue + directory
}

// `Mendable` stands in the clauses of each half, and in no type: a struct that lends the image would owe it at each write, and here
// it is shown once for a half as a whole.

// The header half. Where parse saw no copy that differs from the vote, there is nothing to write.
pub(crate) fn mend_header(bytes: &mut [u8], header: Header) -> usize
    requires { Mendable header bytes.old × Tells header bytes.old }
    ensures leaves { bytes.new ≡ mend_header bytes.old }
    ensures counts { result ≡ changed bytes.old bytes.new }
{
    if !header.needs_scrub() {
        return 0;
    }
    vote_header(bytes, header)
}
