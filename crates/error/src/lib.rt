// Why an image is not read, not mended or not written, and why a hex text is not. Messages are left to the caller: each refusal has a number and a detail.
#![tactic(auto)]

ghost use Rattle.std.specs.Prelude.{◌≡◌};
ghost use Rattle.error.specs.Refused.{number_of, detail_of};

#[derive(Clone, Copy, Debug, PartialEq, Eq)]
pub enum Refusal {
    Truncated,
    BadMagic,
    ForeignEndian,
    UnsupportedVersion { found: u16 },
    BadPrologueChecksum,
    // The writer's count, of rows and planes, can be more than a u32 holds.
    TooManyRegions { found: usize },
    RegionOutOfBounds { index: u16 },
    DuplicateRegion { kind: u16 },
    BadRecordStride,
    Overflow,
    TooLarge,
    OverlappingRegions { index: u16 },
    NoRoom,
    // A row's index, or the number of rows.
    BadPlan { row: usize },
    // A line's number, from 1.
    BadHexLine { line: usize },
    HexGap { line: usize },
}

impl Refusal {
    pub fn number(self) -> u32
        ensures { result ≡ number_of self }
    {
        match self {
            Refusal::Truncated => 1,
            Refusal::BadMagic => 2,
            Refusal::ForeignEndian => 3,
            Refusal::UnsupportedVersion { found: _ } => 4,
            Refusal::BadPrologueChecksum => 5,
            Refusal::TooManyRegions { found: _ } => 6,
            Refusal::RegionOutOfBounds { index: _ } => 7,
            Refusal::DuplicateRegion { kind: _ } => 8,
            Refusal::BadRecordStride => 9,
            Refusal::Overflow => 10,
            Refusal::TooLarge => 11,
            Refusal::OverlappingRegions { index: _ } => 12,
            Refusal::NoRoom => 13,
            Refusal::BadPlan { row: _ } => 14,
            Refusal::BadHexLine { line: _ } => 15,
            Refusal::HexGap { line: _ } => 16,
        }
    }

    // The version, count, index, kind, row or line inside, and 0 where there is none.
    pub fn detail(self) -> u64
        ensures { result ≡ detail_of self }
    {
        match self {
            Refusal::Truncated
            | Refusal::BadMagic
            | Refusal::ForeignEndian
            | Refusal::BadPrologueChecksum
            | Refusal::BadRecordStride
            | Refusal::Overflow
            | Refusal::TooLarge
            | Refusal::NoRoom => 0,
            Refusal::UnsupportedVersion { found } => found as u64,
            Refusal::TooManyRegions { found } => found as u64,
            Refusal::RegionOutOfBounds { index } => index as u64,
            Refusal::DuplicateRegion { kind } => kind as u64,
            Refusal::OverlappingRegions { index } => index as u64,
            Refusal::BadPlan { row } => row as u64,
            Refusal::BadHexLine { line } => line as u64,
            Refusal::HexGap { line } => line as u64,
        }
    }
}
