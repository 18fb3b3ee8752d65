// Little-endian numbers out of bytes and into bytes, and the vote over three bytes.
#![tactic(auto, unfolding(model::specs::Bytes::read, model::specs::Bytes::le_bytes))]

ghost use Rattle.std.specs.Prelude.{◌≡◌, ℕ, option_map, unwrap_or};
ghost use Rattle.std.proofs.Common.{rules};
ghost use Rattle.bits.specs.Vote.{Majority};
ghost use Rattle.model.specs.Bytes.{read, read_in, le_bytes};
ghost use Rattle.model.specs.Layout as model;
ghost use Rattle.scalar.specs.Number.{NumberLaws};

// An unsigned number that is stored in N bytes, lowest first.
pub trait Number<const N: usize> {
    ghost value: { Self → ℕ };

    fn from_bytes(bytes: [u8; N]) -> Self
        ensures { value result ≡ read N bytes.entry 0 };

    fn to_bytes(self) -> [u8; N]
        ensures { result ≡ le_bytes N (value self) };

    ghost laws: { NumberLaws value N };
}

impl Number<1> for u8 {
    ghost value = { λ v. v };

    fn from_bytes(bytes: [u8; 1]) -> u8
        ensures { result ≡ read 1 bytes 0 }
    {
        u8::from_le_bytes(bytes)
    }

    fn to_bytes(self) -> [u8; 1]
        ensures { result ≡ le_bytes 1 self }
    {
        u8::to_le_bytes(self)
    }

    ghost laws = { record { few = Prim.search rules; one = λ _ _ e. e } };
}

impl Number<2> for u16 {
    ghost value = { λ v. v };

    fn from_bytes(bytes: [u8; 2]) -> u16
        ensures { result ≡ read 2 bytes 0 }
    {
        u16::from_le_bytes(bytes)
    }

    fn to_bytes(self) -> [u8; 2]
        ensures { result ≡ le_bytes 2 self }
    {
        u16::to_le_bytes(self)
    }

    ghost laws = { record { few = Prim.search rules; one = λ _ _ e. e } };
}

impl Number<4> for u32 {
    ghost value = { λ v. v };

    fn from_bytes(bytes: [u8; 4]) -> u32
        ensures { result ≡ read 4 bytes 0 }
    {
        u32::from_le_bytes(bytes)
    }

    fn to_bytes(self) -> [u8; 4]
        ensures { result ≡ le_bytes 4 self }
    {
        u32::to_le_bytes(self)
    }

    ghost laws = { record { few = Prim.search rules; one = λ _ _ e. e } };
}

impl Number<8> for u64 {
    ghost value = { λ v. v };

    fn from_bytes(bytes: [u8; 8]) -> u64
        ensures { result ≡ read 8 bytes 0 }
    {
        u64::from_le_bytes(bytes)
    }

    fn to_bytes(self) -> [u8; 8]
        ensures { result ≡ le_bytes 8 self }
    {
        u64::to_le_bytes(self)
    }

    ghost laws = { record { few = Prim.search rules; one = λ _ _ e. e } };
}

// The number in the N bytes from `at` on. It is total: `None` where they reach past the end, at any offset.
#[tactic(auto, using(crate::proofs::ReadLaw::outside, crate::proofs::ReadLaw::inside))]
pub fn number_at<T: Number<N>, const N: usize>(b: &[u8], at: usize) -> Option<T>
    ensures { option_map T.value result ≡ read_in N b.now at }
{
    let rest = b.get(at..)?;
    let bytes = rest.first_chunk::<N>()?;
    Some(T::from_bytes(*bytes))
}

// The word at `at`, and 0 where it would reach past the end, as docs/PROMISES.md says: for a caller that knows that it doesn't.
pub fn u64_or_zero(b: &[u8], at: usize) -> u64
    ensures { result ≡ unwrap_or (read_in 8 b.now at) 0 }
{
    number_at(b, at).unwrap_or(0)
}

// Each bit is what two or more of the three bytes have there.
#[tactic(auto, using(bits::proofs::VoteLaw::majority))]
pub fn maj3(a: u8, b: u8, c: u8) -> u8
    ensures value { result ≡ model.maj3 a b c }
    ensures majority { Majority a b c result }
{
    (a & b) | (a & c) | (b & c)
}
