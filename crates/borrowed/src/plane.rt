// A parity plane, after ecc.rs. (FORMAT 7)
ghost use Rattle.std.specs.Prelude.{◌≡◌};
ghost use Rattle.model.specs.Scan.{slice_word, slice_scan};
ghost use Rattle.ecc.specs.Answers.{as_word, as_report};

use ecc::{EccReport, WordStatus};

// Byte w of the plane belongs to word w of the data.
#[derive(Clone, Copy)]
pub struct EccPlane<'a> {
    pub parity: &'a [u8],
}

impl<'a> EccPlane<'a> {
    pub fn new(parity: &'a [u8]) -> EccPlane<'a>
        ensures { result.parity ≡ parity.entry }
    {
        EccPlane { parity }
    }

    pub fn bytes(self) -> &'a [u8]
        ensures { result ≡ self.entry.parity }
    {
        self.parity
    }

    // What a word and its byte say, or nothing where the index lies outside the data or the plane.
    pub fn word(self, data: &[u8], index: usize) -> Option<WordStatus>
        ensures { as_word result ≡ slice_word «data».now self.entry.parity.now index }
    {
        ecc::plane_word(self.parity, data, index)
    }

    // Every word of the data that has its byte in the plane.
    pub fn scan(self, data: &[u8]) -> EccReport
        ensures { as_report result ≡ slice_scan «data».now self.entry.parity.now }
    {
        ecc::plane_scan(self.parity, data)
    }
}
