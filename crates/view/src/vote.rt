// What three copies of a header's bytes say together: bytes, numbers and directory entries by the bitwise majority. (FORMAT 3)
ghost use Rattle.std.specs.Prelude.{◌≡◌, ◌+◌, ◌*◌, ◌<◌, ◌≤◌, length, take, drop};
ghost use Rattle.model.specs.Bytes.{at, read, thrice};
ghost use Rattle.model.specs.Crc as model;
ghost use Rattle.model.specs.Layout.{voted, differs};
ghost use Rattle.model.proofs.CopiesLaw.{off_at};

use scalar::{Number, maj3};

// Three copies of `len` bytes each, the first from byte `base` on.
#[derive(Clone, Copy)]
pub(crate) struct Copies<'a> {
    pub(crate) bytes: &'a [u8],
    pub(crate) base: usize,
    pub(crate) len: usize,
    ghost fit: { base + 3 * len ≤ length bytes.now },
}

impl<'a> Copies<'a> {
    // Byte j of the vote.
    fn byte(self, j: usize) -> u8
        requires { j < self.len }
        ensures { result ≡ at (voted self.entry.base self.entry.len self.entry.bytes.now) j }
    {
        maj3(
            self.bytes[self.base + j],
            self.bytes[self.base + self.len + j],
            self.bytes[self.base + 2 * self.len + j],
        )
    }

    // N bytes of the vote, from byte p on.
    fn bytes_at<const N: usize>(self, p: usize) -> [u8; N]
        requires { p + N ≤ self.len }
        ensures { result ≡ take N (drop p (voted self.entry.base self.entry.len self.entry.bytes.now)) }
    {
        let mut bytes = [0u8; N];
        for j in 0..N {
            bytes[j] = self.byte(p + j);
        }
        bytes
    }

    // The number in the N voted bytes from p on.
    pub(crate) fn number_at<T: Number<N>, const N: usize>(self, p: usize) -> T
        requires { p + N ≤ self.len }
        ensures { T.value result ≡ read N (voted self.entry.base self.entry.len self.entry.bytes.now) p }
    {
        T::from_bytes(self.bytes_at(p))
    }

    // Some copy of byte j differs from the vote.
    fn differ_at(self, j: usize) -> bool
        requires { j < self.len }
        ensures { result ≡ off_at self.entry.base self.entry.len self.entry.bytes.now j }
    {
        let v = self.byte(j);
        if self.bytes[self.base + j] != v {
            return true;
        }
        if self.bytes[self.base + self.len + j] != v {
            return true;
        }
        self.bytes[self.base + 2 * self.len + j] != v
    }

    // Some copy differs from the vote.
    pub(crate) fn differ(self) -> bool
        ensures { result ≡ differs (thrice (voted self.entry.base self.entry.len self.entry.bytes.now)) (drop self.entry.base self.entry.bytes.now) }
    {
        for j in 0..self.len {
            if self.differ_at(j) {
                return true;
            }
        }
        false
    }

    // The checksum of the first twelve bytes of the vote.
    pub(crate) fn checksum(self) -> u32
        requires { 12 ≤ self.len }
        ensures { result ≡ model.crc32 (take 12 (voted self.entry.base self.entry.len self.entry.bytes.now)) }
    {
        let start: [u8; 12] = self.bytes_at(0);
        crc::crc32(&start)
    }
}
