// Bytes put into a lent buffer in address order. Each function starts at a place and gives the place right behind its bytes.
// Buffer and place are two parameters: in a struct the buffer would be a `&mut` that every clause of every caller has to follow.
// The caller has the room, and is proved to: a test in each of them would never be seen to fail. (docs/DECISIONS.md)
#![tactic(auto)]

ghost use Rattle.std.specs.Prelude.{◌++◌, ◌+◌, ◌≤◌, length, replicate};
ghost use Rattle.model.specs.Bytes.{le_bytes};
ghost use Rattle.model.specs.Programs.{decimal};
ghost use Rattle.put.specs.Put.{Put};

use scalar::Number;

// A loop, since `copy_from_slice` calls `memmove`, and firmware may have no C library: the archive asks for `memset` alone (tests/api.sh).
#[tactic(auto, using(crate::proofs::PutLaw::pasted, std::proofs::lemmas::List::Edits::paste_more))]
pub fn put_bytes(out: &mut [u8], at: usize, bytes: &[u8]) -> usize
    requires { at + length bytes.now ≤ length out.old }
    ensures { Put out.old at bytes.now result out.new }
{
    for (i, byte) in bytes.iter().enumerate() {
        out[at + i] = *byte;
    }
    at + bytes.len()
}

#[tactic(auto, using(crate::proofs::PutLaw::came_back))]
pub fn put_zeros(out: &mut [u8], at: usize, n: usize) -> usize
    requires { at + n ≤ length out.old }
    ensures { Put out.old at (replicate n 0) result out.new }
{
    let end = at + n;
    out[at..end].fill(0);
    end
}

// The bytes of a number, lowest first.
pub fn put_number<T: Number<N>, const N: usize>(out: &mut [u8], at: usize, v: T) -> usize
    requires { at + N ≤ length out.old }
    ensures { Put out.old at (le_bytes N (T.value v)) result out.new }
{
    put_bytes(out, at, &v.to_bytes())
}

// A text and a number in decimal, which has at most 20 digits.
pub fn put_field(out: &mut [u8], at: usize, text: &[u8], n: u64) -> usize
    requires { at + length text.now + 20 ≤ length out.old }
    ensures is { Put out.old at (text.now ++ decimal n) result out.new }
    ensures few { result ≤ at + length text.now + 20 }
{
    let mut digits = [0u8; 20];
    let count = io::decimal(n, &mut digits);
    let number = put_bytes(out, at, text);
    put_bytes(out, number, &digits[..count])
}
