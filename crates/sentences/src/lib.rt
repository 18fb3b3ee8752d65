// A refusal in words. (FORMAT 14)
#![tactic(auto, unfolding(model::specs::Programs::text, crate::specs::Sentences::sentence))]

ghost use Rattle.std.specs.Prelude.{◌≡◌, ℕ, ◌++◌, ◌+◌, ◌<◌, ◌≤◌, length, MatchOption, IfSome};
ghost use Rattle.std.proofs.lemmas.List.Edits.{sets};
ghost use Rattle.io.specs.Counts.{IsPrefixLen};
ghost use Rattle.error.specs.Refused.{detail_of};
ghost use Rattle.model.specs.Programs.{decimal};
ghost use Rattle.sentences.specs.Sentences.{sentence};
ghost use Rattle.sentences.specs.Templates.{filled};

use error::Refusal;
use put::{put_bytes, put_field};

// The sentence on a refusal, with # in the place of its detail.
fn template(refusal: Refusal) -> &'static str
    ensures says { filled (detail_of refusal) result.now ≡ sentence refusal }
    ensures short { length result.now ≤ 100 }
{
    match refusal {
        Refusal::Truncated => "the image ends inside its header (Truncated)",
        Refusal::BadMagic => "not a keleusma-wire image (BadMagic)",
        Refusal::ForeignEndian => "the byte order is not little-endian (ForeignEndian)",
        Refusal::UnsupportedVersion { .. } => {
            "version # of the format is not supported (UnsupportedVersion)"
        }
        Refusal::BadPrologueChecksum => "the header's checksum is wrong (BadPrologueChecksum)",
        Refusal::TooManyRegions { .. } => "# regions are more than 1024 (TooManyRegions)",
        Refusal::RegionOutOfBounds { .. } => "entry # ends past the image (RegionOutOfBounds)",
        Refusal::DuplicateRegion { .. } => "kind # stands twice in the directory (DuplicateRegion)",
        Refusal::BadRecordStride => "the stride of a table does not fit (BadRecordStride)",
        Refusal::Overflow => "a size has more than 64 bits (Overflow)",
        Refusal::TooLarge => "the image would be too large (TooLarge)",
        Refusal::OverlappingRegions { .. } => {
            "entry # lies on the header or on an earlier region (OverlappingRegions)"
        }
        Refusal::NoRoom => "there is no room for the image (NoRoom)",
        Refusal::BadPlan { .. } => "row # of the plan is wrong (BadPlan)",
        Refusal::BadHexLine { .. } => "line # is no line of a hex text (BadHexLine)",
        Refusal::HexGap { .. } => { "line # does not go on where the bytes before it end (HexGap)" }
    }
}

// What stands before and behind the place of the detail, where there is one.
fn split(template: &str) -> Option<(&str, &str)>
    ensures shorter { IfSome result (λ parts. length parts.0.now + length parts.1.now < length template.now) }
    ensures fills { (n : ℕ) → MatchOption result (filled n template.now ≡ template.now) (λ parts. filled n template.now ≡ parts.0.now ++ (decimal n ++ parts.1.now)) }
{
    template.split_once('#')
}

// The sentence on a refusal, in a lent buffer: nothing here uses the heap, and the clauses say what every byte of it becomes.
pub fn in_words(refusal: Refusal, out: &mut [u8; 128]) -> usize
    ensures is { result ≡ length (sentence refusal) }
    ensures leaves { out.new ≡ sets out.old 0 (sentence refusal) }
    ensures fits { IsPrefixLen result out.new }
    ensures few { result ≤ 120 }
{
    let text = template(refusal);
    match split(text) {
        None => put_bytes(out, 0, text.as_bytes()),
        Some((before, behind)) => {
            let end = put_field(out, 0, before.as_bytes(), refusal.detail());
            put_bytes(out, end, behind.as_bytes())
        }
    }
}
