// What the programs and the command print of an image, made in a buffer of the caller's. (FORMAT 11, 14)
// The buffer is lent, with its length as the answer, since nothing here uses the heap and the clauses of each public function say what every byte of it becomes.
#![tactic(auto)]

mod line;
mod told;

ghost use Rattle.std.specs.Prelude.{◌≡◌, length, take};
ghost use Rattle.std.proofs.lemmas.List.Edits.{sets};
ghost use Rattle.io.specs.Counts.{IsPrefixLen};
ghost use Rattle.model.specs.Programs.{report_text, scrub_image, scrub_text};
ghost use Rattle.text.specs.Told.{left_in};

use layout::MAX_INPUT_BYTES;
pub use told::{file_report, mend_report};
use told::{put_outcome, put_report};

// The report on an image, from the start of out on; the number of its bytes.
pub fn report(image: &[u8], out: &mut [u8; 128]) -> usize
    ensures is { result ≡ length (report_text image.now) }
    ensures leaves { out.new ≡ sets out.old 0 (report_text image.now) }
    ensures fits { IsPrefixLen result out.new }
{
    let found = findings::look(image, MAX_INPUT_BYTES);
    put_report(out, b"", false, found)
}

// How many bytes go to standard output and to standard error.
#[derive(Clone, Copy)]
pub struct Printed {
    pub image: usize,
    pub line: usize,
}

// Mends an image in place, and puts the line on it at the start of out. A mended image is to be written whole, any other not at all.
pub fn scrub(image: &mut [u8], out: &mut [u8; 128]) -> Printed
    ensures is { result.line ≡ length (scrub_text image.old) }
    ensures says { out.new ≡ sets out.old 0 (scrub_text image.old) }
    ensures leaves { image.new ≡ left_in image.old }
    ensures writes { (result.image ≡ length (scrub_image image.old)) × (take result.image image.new ≡ scrub_image image.old) }
    ensures fits { IsPrefixLen result.line out.new × IsPrefixLen result.image image.new }
{
    let outcome = findings::mend_within(image, MAX_INPUT_BYTES);
    let line = put_outcome(out, outcome);
    match outcome {
        Ok(_) => Printed {
            image: image.len(),
            line,
        },
        Err(_) => Printed { image: 0, line },
    }
}
