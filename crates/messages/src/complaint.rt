// The line in words on an image that is refused or too long. (FORMAT 14)
#![tactic(auto, using(put::proofs::PutLaw::sets_append), unfolding(model::specs::Programs::text))]

ghost use Rattle.std.specs.Prelude.{◌≡◌, [], ◌∷◌, ◌++◌, ◌+◌, ◌≤◌, length};
ghost use Rattle.std.proofs.lemmas.List.Edits.{sets};
ghost use Rattle.io.specs.Counts.{IsPrefixLen};
ghost use Rattle.put.specs.Put.{Put};
ghost use Rattle.model.specs.Programs.{lines};
ghost use Rattle.sentences.specs.Sentences.{sentence};
ghost use Rattle.messages.specs.Complaints.{too_long_sentence, naming, refusal_text};

use error::Refusal;
use exit_status::Verdict;
use paths::LONGEST_NAME;
use put::put_bytes;

pub(crate) fn put_name(out: &mut [u8], name: &[u8]) -> usize
    requires { length name.now + 6 ≤ length out.old }
    ensures is { Put out.old 0 (naming name.now) result out.new }
    ensures few { result ≤ length name.now + 6 }
{
    let at = put_bytes(out, 0, b"kw: ");
    let colon = put_bytes(out, at, name);
    put_bytes(out, colon, b": ")
}

fn put_line(out: &mut [u8], name: &[u8], sentence: &[u8]) -> usize
    requires { length name.now + length sentence.now + 7 ≤ length out.old }
    ensures is { Put out.old 0 (lines ((naming name.now ++ sentence.now) ∷ [])) result out.new }
    ensures few { result ≤ length name.now + length sentence.now + 7 }
{
    let at = put_name(out, name);
    let end = put_bytes(out, at, sentence);
    put_bytes(out, end, b"\n")
}

fn put_too_long(out: &mut [u8], name: &[u8]) -> usize
    requires { length name.now + 127 ≤ length out.old }
    ensures is { Put out.old 0 (lines ((naming name.now ++ too_long_sentence) ∷ [])) result out.new }
    ensures few { result ≤ length name.now + 127 }
{
    put_line(
        out,
        name,
        b"the image has more than 8388608 bytes (too-long)",
    )
}

fn put_refused(out: &mut [u8], name: &[u8], refusal: Refusal) -> usize
    requires { length name.now + 127 ≤ length out.old }
    ensures is { Put out.old 0 (lines ((naming name.now ++ sentence refusal) ∷ [])) result out.new }
    ensures few { result ≤ length name.now + 127 }
{
    let mut words = [0u8; 128];
    let n = sentences::in_words(refusal, &mut words);
    put_line(out, name, &words[..n])
}

// The line on an image that is refused or too long, and nothing on any other.
pub fn refusal(name: &[u8], verdict: Verdict, out: &mut [u8; 4352]) -> usize
    ensures is { result ≡ length (refusal_text name.now verdict) }
    ensures leaves { out.new ≡ sets out.old 0 (refusal_text name.now verdict) }
    ensures fits { IsPrefixLen result out.new }
{
    if name.len() > LONGEST_NAME {
        return 0;
    }
    match verdict {
        Verdict::Sound => 0,
        Verdict::Damaged => 0,
        Verdict::TooLong => put_too_long(out, name),
        Verdict::Refused(refusal) => put_refused(out, name, refusal),
    }
}
