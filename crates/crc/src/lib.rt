// The checksum: CRC-32 of IEEE 802.3, a bit at a time. (FORMAT 4)
#![tactic(auto)]

ghost use Rattle.std.specs.Prelude.{◌≡◌};
ghost use Rattle.model.specs.Crc.{bits_low, step_r, serial_r, Crc32, crc32};

// G without x^32, the coefficient of x^31 as the lowest bit.
const POLY: u32 = 0xEDB8_8320;

// The register moved down by a bit, with POLY put in where that bit was set. The Rust makes a mask of the bit by
// `wrapping_neg`; LLVM knows this branch for a CRC, and makes a table of it: half the time of the mask.
#[tactic(auto, using(bits::proofs::BitLaw::low_on), unfolding(model::specs::Crc::step_r))]
fn low_bit_step(crc: u32) -> u32
    ensures { result ≡ step_r crc }
{
    if crc & 1 == 1 {
        (crc >> 1) ^ POLY
    } else {
        crc >> 1
    }
}

// The register with the eight bits of a byte put in, lowest first.
#[tactic(auto, using(model::proofs::CrcRegister::run_serial, model::proofs::CrcRegister::run_turn, model::proofs::CrcRegister::run_done))]
fn feed(crc: u32, byte: u8) -> u32
    ensures { result ≡ serial_r crc (bits_low 8 byte) }
{
    let mut reg = crc ^ (byte as u32);
    for _ in 0..8u32 {
        reg = low_bit_step(reg);
    }
    reg
}

// The CRC-32 of `bytes`: the number, and that it is the remainder that IEEE 802.3 asks for.
#[tactic(auto, using(model::proofs::CrcRegister::byte_turn, model::proofs::CrcRegister::bytes_done, model::proofs::CrcDivision::crc_is_802_3), unfolding(model::specs::Crc::crc32))]
pub fn crc32(bytes: &[u8]) -> u32
    ensures value { result ≡ crc32 bytes.now }
    ensures crc32 { Crc32 bytes.now result }
{
    let mut crc: u32 = 0xFFFF_FFFF;
    for byte in bytes {
        crc = feed(crc, *byte);
    }
    !crc
}
