// What an argument is, by itself. (FORMAT 14)
#![tactic(auto, unfolding(model::specs::Programs::text))]

ghost use Rattle.std.specs.Prelude.{◌≡◌};
ghost use Rattle.arguments.specs.Arguments as model;

use crate::words::{Command, Word};

// A dash alone is a name.
fn is_dashed(argument: &[u8]) -> bool
    ensures { result ≡ model.dashed argument.now }
{
    matches!(argument, [b'-', _, ..])
}

// Words are compared one by one: a match on byte strings has cases by length and by byte, and the check leaves their goals open.
fn option(argument: &[u8]) -> Word
    ensures { result ≡ model.option_of argument.now }
{
    if argument == b"-o".as_slice() {
        return Word::OutputOption;
    }
    if argument == b"--".as_slice() {
        return Word::EndOfOptions;
    }
    if argument == b"-h".as_slice() || argument == b"--help".as_slice() {
        return Word::HelpOption;
    }
    if argument == b"--version".as_slice() {
        return Word::VersionOption;
    }
    if is_dashed(argument) {
        return Word::OtherOption;
    }
    Word::Name
}

pub fn word(argument: &[u8]) -> Word
    ensures { result ≡ model.word_of argument.now }
{
    if argument == b"report".as_slice() {
        return Word::Command(Command::Report);
    }
    if argument == b"mend".as_slice() {
        return Word::Command(Command::Mend);
    }
    if argument == b"help".as_slice() {
        return Word::Command(Command::Help);
    }
    if argument == b"version".as_slice() {
        return Word::Command(Command::Version);
    }
    option(argument)
}

// A name that stands for standard input or output.
pub fn is_standard(name: &[u8]) -> bool
    ensures { result ≡ model.standard name.now }
{
    name == b"-".as_slice()
}
