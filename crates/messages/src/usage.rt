// Help, and what is said of arguments that ask for nothing. (FORMAT 14)
#![tactic(auto, using(put::proofs::PutLaw::sets_append), unfolding(model::specs::Programs::text))]

ghost use Rattle.std.specs.Prelude.{◌≡◌, ◌+◌, ◌≤◌, length};
ghost use Rattle.std.proofs.lemmas.List.Edits.{sets};
ghost use Rattle.io.specs.Counts.{IsPrefixLen};
ghost use Rattle.put.specs.Put.{Put};
ghost use Rattle.messages.specs.Usages.{help_text, version_text, fault_sentence, fault_start, fault_text};

use crate::complaint::put_name;
use arguments::{Command, Fault};
use paths::LONGEST_NAME;
use put::put_bytes;

fn help_on(topic: Option<Command>) -> &'static [u8]
    ensures is { result.now ≡ help_text topic }
    ensures few { length result.now ≤ 512 }
{
    match topic {
        Some(Command::Report) => {
            b"usage: kw report FILE...\n\nSays of each image how many regions it has, whether a copy of its header is\ndamaged, and how many protected words were examined, can be corrected and can't.\n"
        }
        Some(Command::Mend) => {
            b"usage: kw mend FILE [-o OUT]\n\nRepairs what votes and parity decide, in FILE itself or into OUT, and says how\nmany bytes changed and how many words remain uncorrectable.\n"
        }
        _ => {
            b"usage: kw report FILE...\n       kw mend FILE [-o OUT]\n       kw help [COMMAND]\n       kw version\n\nFILE - is standard input, and OUT - is standard output.\n\nExit status: 0 nothing is wrong, 1 damage, 2 refused or too long,\n3 usage, or a file that can't be read or written.\n"
        }
    }
}

// Help on a command, and on all of them where it has none of its own.
pub fn help(topic: Option<Command>, out: &mut [u8; 4352]) -> usize
    ensures is { result ≡ length (help_text topic) }
    ensures leaves { out.new ≡ sets out.old 0 (help_text topic) }
    ensures fits { IsPrefixLen result out.new }
{
    put_bytes(out, 0, help_on(topic))
}

pub fn version(out: &mut [u8; 4352]) -> usize
    ensures is { result ≡ length version_text }
    ensures leaves { out.new ≡ sets out.old 0 version_text }
    ensures fits { IsPrefixLen result out.new }
{
    put_bytes(out, 0, b"kw 0.2.0, image format 2\n")
}

fn put_fault_start(out: &mut [u8], word: &[u8]) -> usize
    requires { length word.now + 6 ≤ length out.old }
    ensures is { Put out.old 0 (fault_start word.now) result out.new }
    ensures few { result ≤ length word.now + 6 }
{
    if word.is_empty() {
        put_bytes(out, 0, b"kw: ")
    } else {
        put_name(out, word)
    }
}

fn sentence_on(fault: Fault) -> &'static [u8]
    ensures is { result.now ≡ fault_sentence fault }
    ensures few { length result.now ≤ 40 }
{
    match fault {
        Fault::NoCommand => b"a command is missing",
        Fault::NoSuchCommand => b"no such command",
        Fault::NoSuchOption => b"no such option",
        Fault::NoFile => b"a file is missing",
        Fault::SecondFile => b"mend takes one file",
        Fault::NoOutput => b"-o lacks the name of a file",
        Fault::SecondOutput => b"only one -o",
        Fault::NotExpected => b"not expected here",
    }
}

// What is wrong with the arguments, of which word is the one at fault, or empty where one is missing.
pub fn fault(fault: Fault, word: &[u8], out: &mut [u8; 4352]) -> usize
    ensures is { result ≡ length (fault_text fault word.now) }
    ensures leaves { out.new ≡ sets out.old 0 (fault_text fault word.now) }
    ensures fits { IsPrefixLen result out.new }
{
    if word.len() > LONGEST_NAME {
        return 0;
    }
    let at = put_fault_start(out, word);
    let end = put_bytes(out, at, sentence_on(fault));
    put_bytes(out, end, b"; try kw help\n")
}
