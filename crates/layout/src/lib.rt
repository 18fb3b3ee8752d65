// The container's constants and limits, a directory entry as a value, and three sizes.
#![tactic(auto)]

ghost use Rattle.std.specs.Prelude.{◌≡◌, ◌*◌};
ghost use Rattle.model.specs.Layout.{end, is_encrypted, is_plane, has_ecc, header_length, words_for, header_bytes};
ghost use Rattle.model.specs.Scan.{is_protected};
ghost use Rattle.layout.specs.Regions.{as_entry};

// Bytes of a word. Every region and record is a whole number of words.
pub const WORD: usize = 8;

pub const MAGIC: u32 = 0x4B41_5558;

// The byte-order marker.
pub const BOM: u16 = 0xFEFF;

pub const FORMAT_VERSION: u16 = 2;

pub const PROLOGUE_BYTES: usize = 16;

pub const DIR_ENTRY_BYTES: usize = 16;

// How many copies of the prologue and of the directory a header has.
pub const COPIES: usize = 3;

// Where the first copy of the directory starts.
pub const DIRECTORY_OFFSET: usize = PROLOGUE_BYTES * COPIES;

pub const MAX_REGIONS: usize = 1024;

// The longest image that the writer makes and the command takes.
pub const MAX_IMAGE_BYTES: usize = 8_388_608;

// The longest input that the programs look at.
pub const MAX_INPUT_BYTES: usize = 65_536;

// Bits of an entry's flags, a number of the format that is handed out as it stands: an image may have any.
pub const FLAG_ENCRYPTED: u16 = 1 << 0;

pub const FLAG_ECC_PRESENT: u16 = 1 << 1;

pub const FLAG_OPTIONAL: u16 = 1 << 2;

pub const FLAG_IS_ECC: u16 = 1 << 3;

// A directory entry, without its reserved field.
#[derive(Clone, Copy, Debug, PartialEq, Eq)]
pub struct Region {
    pub kind: u16,
    pub flags: u16,
    pub word_offset: u32,
    pub word_length: u32,
    // Of a parity plane: the kind of the region that it protects.
    pub covers: u16,
}

impl Region {
    pub fn byte_offset(self) -> usize
        ensures { result ≡ 8 * self.word_offset }
    {
        self.word_offset as usize * WORD
    }

    pub fn byte_length(self) -> usize
        ensures { result ≡ 8 * self.word_length }
    {
        self.word_length as usize * WORD
    }

    // The byte after the last.
    pub fn byte_end(self) -> usize
        ensures { result ≡ end (as_entry self) }
    {
        (self.word_offset as usize + self.word_length as usize) * WORD
    }

    pub fn is_encrypted(self) -> bool
        ensures { result ≡ is_encrypted self.flags }
    {
        self.flags & FLAG_ENCRYPTED != 0
    }

    pub fn is_ecc_plane(self) -> bool
        ensures { result ≡ is_plane self.flags }
    {
        self.flags & FLAG_IS_ECC != 0
    }

    pub fn has_ecc(self) -> bool
        ensures { result ≡ has_ecc self.flags }
    {
        self.flags & FLAG_ECC_PRESENT != 0
    }

    // No plane, and flagged 2.
    pub fn is_protected(self) -> bool
        ensures { result ≡ is_protected (as_entry self) }
    {
        !self.is_ecc_plane() && self.has_ecc()
    }
}

// Rounds a byte count up to a whole number of words; nothing where the sum does not fit.
pub fn words_for(bytes: usize) -> Option<usize>
    ensures { result ≡ words_for bytes }
{
    Some(bytes.checked_add(WORD - 1)? / WORD)
}

// The length in bytes of all copies of the prologue and of the directory; nothing where it does not fit.
pub fn header_bytes(region_count: usize) -> Option<usize>
    ensures { result ≡ header_bytes region_count }
{
    region_count
        .checked_mul(DIR_ENTRY_BYTES * COPIES)?
        .checked_add(DIRECTORY_OFFSET)
}

// The header's length for a prologue's count of 16 bits, which always fits.
pub fn header_length(region_count: u16) -> usize
    ensures { result ≡ header_length region_count }
{
    region_count as usize * DIR_ENTRY_BYTES * COPIES + DIRECTORY_OFFSET
}
