// Parse: the header's checks in their order. (FORMAT 5)
ghost use Rattle.std.specs.Prelude.{◌≡◌, ◌||◌, ◌<◌, ◌≤◌, length, MatchResult};
ghost use Rattle.model.specs.Layout.{prologue, count, directory_of, end};
ghost use Rattle.model.specs.Parse as model;
ghost use Rattle.model.specs.Steps.{entry_in};
ghost use Rattle.error.specs.Refused.{as_check, number_of, detail_of};
ghost use Rattle.view.specs.Answers.{as_counted, with_count, fine_with, refused_with, as_parsed};
ghost use Rattle.view.specs.Kinds.{elem, kinds_of};

use crate::directory::Directory;
use crate::vote::Copies;
use error::Refusal;
use layout::{BOM, DIRECTORY_OFFSET, FORMAT_VERSION, MAGIC, MAX_REGIONS, PROLOGUE_BYTES, WORD};

// An accepted image's number of regions, and which header copies disagreed with their vote.
#[derive(Clone, Copy, Debug, PartialEq, Eq)]
pub struct Header {
    pub region_count: u16,
    pub prologue_disagreed: bool,
    pub directory_disagreed: bool,
}

impl Header {
    // Some header copy is damaged. The vote outvotes it; once it is rewritten, a later error can be outvoted again.
    pub fn needs_scrub(self) -> bool
        ensures { result ≡ self.prologue_disagreed || self.directory_disagreed }
    {
        self.prologue_disagreed || self.directory_disagreed
    }
}

pub fn parse(bytes: &[u8]) -> Result<Header, Refusal>
    ensures { as_parsed result ≡ model.parse bytes.now }
{
    let directory = check_header(bytes)?;
    let prologue = Copies {
        bytes,
        base: 0,
        len: PROLOGUE_BYTES,
    };
    Ok(Header {
        region_count: directory.count,
        prologue_disagreed: prologue.differ(),
        directory_disagreed: directory.copies().differ(),
    })
}

// The directory, without asking which header copies differ.
fn check_header(bytes: &[u8]) -> Result<Directory, Refusal>
    ensures { MatchResult result (λ d. (d.bytes ≡ bytes.entry) × (fine_with d.count ≡ with_count (model.parse_verdict bytes.now) (count bytes.now)))
        (λ r. refused_with (number_of r) (detail_of r) ≡ with_count (model.parse_verdict bytes.now) (count bytes.now)) }
{
    if bytes.len() < DIRECTORY_OFFSET {
        return Err(Refusal::Truncated);
    }
    let n = check_prologue(bytes)?;
    let Some(directory) = Directory::of(bytes, n) else {
        return Err(Refusal::Truncated);
    };
    check_directory(directory)?;
    Ok(directory)
}

// The voted prologue's fields; the count that it gives is at most 1024.
fn check_prologue(bytes: &[u8]) -> Result<u16, Refusal>
    requires { 48 ≤ length bytes.now }
    ensures { as_counted result ≡ with_count (model.prologue_verdict (prologue bytes.now)) (count bytes.now) }
{
    let prologue = Copies {
        bytes,
        base: 0,
        len: PROLOGUE_BYTES,
    };
    let magic: u32 = prologue.number_at(0);
    if magic != MAGIC {
        return Err(Refusal::BadMagic);
    }
    let order: u16 = prologue.number_at(4);
    if order != BOM {
        return Err(Refusal::ForeignEndian);
    }
    let version: u16 = prologue.number_at(6);
    if version != FORMAT_VERSION {
        return Err(Refusal::UnsupportedVersion { found: version });
    }
    let checksum: u32 = prologue.number_at(12);
    if checksum != prologue.checksum() {
        return Err(Refusal::BadPrologueChecksum);
    }
    let n: u16 = prologue.number_at(8);
    if n as usize > MAX_REGIONS {
        return Err(Refusal::TooManyRegions { found: n as usize });
    }
    Ok(n)
}

fn check_directory(directory: Directory) -> Result<(), Refusal>
    requires { directory.count ≤ 1024 }
    ensures { as_check result ≡ model.entries_verdict (length directory.entry.bytes.now) 0 (directory_of directory.entry.count directory.entry.bytes.now) }
{
    let mut kinds = [0u16; MAX_REGIONS];
    check_entries_in(directory, &mut kinds[..directory.count as usize])
}

// Checks the entries; kinds is scratch space for their kinds.
fn check_entries_in(directory: Directory, kinds: &mut [u16]) -> Result<(), Refusal>
    requires { (directory.count ≤ 1024) × (length kinds.old ≡ directory.count) }
    ensures { as_check result ≡ model.entries_verdict (length directory.entry.bytes.now) 0 (directory_of directory.entry.count directory.entry.bytes.now) }
{
    vote_kinds(directory, kinds);
    check_entries(directory, kinds)
}

// The entries' kinds, each voted once, so that they can be compared with each other quickly.
fn vote_kinds(directory: Directory, kinds: &mut [u16])
    requires { length kinds.old ≡ directory.count }
    ensures { kinds.new ≡ kinds_of (directory_of directory.entry.count directory.entry.bytes.now) }
{
    for i in 0..directory.count as usize {
        kinds[i] = directory.number_at(i, 0);
    }
}

// For each entry in turn: its end past the image, then a later entry with its kind.
fn check_entries(directory: Directory, kinds: &[u16]) -> Result<(), Refusal>
    requires { (directory.count ≤ 1024) × (length kinds.now ≡ directory.count) × (kinds.now ≡ kinds_of (directory_of directory.count directory.bytes.now)) }
    ensures { as_check result ≡ model.entries_verdict (length directory.entry.bytes.now) 0 (directory_of directory.entry.count directory.entry.bytes.now) }
{
    for i in 0..directory.count as usize {
        if directory.bytes.len() < voted_end(directory, i) {
            return Err(Refusal::RegionOutOfBounds { index: i as u16 });
        }
        let kind = kinds[i];
        let next = i + 1;
        if is_among(kind, &kinds[next..]) {
            return Err(Refusal::DuplicateRegion { kind });
        }
    }
    Ok(())
}

// The byte after entry i's last.
fn voted_end(directory: Directory, i: usize) -> usize
    requires { i < directory.count }
    ensures { result ≡ end (entry_in directory.entry.count directory.entry.bytes.now i) }
{
    let offset: u32 = directory.number_at(i, 4);
    let words: u32 = directory.number_at(i, 8);
    WORD * (offset as usize + words as usize)
}

// Whether a kind is among others. The loop always runs to its end, which is compiled to wide compares.
fn is_among(kind: u16, kinds: &[u16]) -> bool
    ensures { result ≡ elem kind kinds.now }
{
    let mut found = false;
    for other in kinds {
        if *other == kind {
            found = true;
        }
    }
    found
}
