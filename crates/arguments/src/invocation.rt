// What the arguments so far ask for. (FORMAT 14)
ghost use Rattle.std.specs.Prelude.{◌≡◌};
ghost use Rattle.arguments.specs.Arguments as model;

use crate::words::{Command, Word};

#[derive(Clone, Copy, PartialEq, Eq)]
pub enum Fault {
    NoCommand,
    NoSuchCommand,
    NoSuchOption,
    NoFile,
    SecondFile,
    NoOutput,
    SecondOutput,
    NotExpected,
}

// Faults are known by these numbers too, of which any other is the last one's.
impl From<u8> for Fault {
    ghost from_gives = { λ number fault. fault ≡ model.fault_numbered number };

    fn from(number: u8) -> Fault {
        match number {
            1 => Fault::NoCommand,
            2 => Fault::NoSuchCommand,
            3 => Fault::NoSuchOption,
            4 => Fault::NoFile,
            5 => Fault::SecondFile,
            6 => Fault::NoOutput,
            7 => Fault::SecondOutput,
            _ => Fault::NotExpected,
        }
    }
}

// A fault, and the argument at fault, if none is missing.
#[derive(Clone, Copy, PartialEq, Eq)]
pub struct Misuse {
    pub fault: Fault,
    pub place: Option<usize>,
}

// The files that are named, by the place of the first.
#[derive(Clone, Copy, PartialEq, Eq)]
pub enum Files {
    None,
    One(usize),
    Several(usize),
}

// How the next argument is read.
#[derive(Clone, Copy, PartialEq, Eq)]
pub enum Next {
    Any,
    Output,
    Name,
}

#[derive(Clone, Copy, PartialEq, Eq)]
pub struct Invocation {
    pub command: Option<Command>,
    // The command that help is asked for.
    pub topic: Option<Command>,
    pub files: Files,
    pub output: Option<usize>,
    pub next: Next,
    pub misuse: Option<Misuse>,
}

pub fn start() -> Invocation
    ensures { result ≡ model.nothing_yet }
{
    Invocation {
        command: None,
        topic: None,
        files: Files::None,
        output: None,
        next: Next::Any,
        misuse: None,
    }
}

// Argument 0 is the command's own name, and stands for none.
pub(crate) fn numbered(place: usize) -> Option<usize>
    ensures { result ≡ model.numbered place }
{
    if place > 0 { Some(place) } else { None }
}

fn may_name(next: Next, word: Word) -> bool
    ensures { result ≡ model.may_name next word }
{
    matches!(
        (next, word),
        (Next::Name, _) | (_, Word::Name | Word::Command(_))
    )
}

impl Invocation {
    fn faulty(self, place: usize, fault: Fault) -> Self
        ensures { result ≡ model.faulty self place fault }
    {
        let misuse = Misuse {
            fault,
            place: numbered(place),
        };
        Self {
            misuse: Some(misuse),
            ..self
        }
    }

    fn commanding(self, command: Command, topic: Option<Command>) -> Self
        ensures { result ≡ model.commanding self command topic }
    {
        Self {
            command: Some(command),
            topic,
            ..self
        }
    }

    fn expecting(self, next: Next) -> Self
        ensures { result ≡ model.expecting self next }
    {
        Self { next, ..self }
    }

    fn with_output(self, place: usize) -> Self
        ensures { result ≡ model.with_output self place }
    {
        Self {
            output: numbered(place),
            next: Next::Any,
            ..self
        }
    }

    fn with_file(self, place: usize) -> Self
        ensures { result ≡ model.with_file self place }
    {
        let files = match self.files {
            Files::None => Files::One(place),
            Files::One(first) | Files::Several(first) => Files::Several(first),
        };
        Self { files, ..self }
    }

    fn first_word(self, place: usize, word: Word) -> Self
        ensures { result ≡ model.first_word self place word }
    {
        match word {
            Word::Command(command) => self.commanding(command, None),
            Word::HelpOption => self.commanding(Command::Help, None),
            Word::VersionOption => self.commanding(Command::Version, None),
            Word::Name => self.faulty(place, Fault::NoSuchCommand),
            _ => self.faulty(place, Fault::NoSuchOption),
        }
    }

    fn only_file(self, place: usize) -> Self
        ensures { result ≡ model.only_file self place }
    {
        match self.files {
            Files::None => self.with_file(place),
            _ => self.faulty(place, Fault::SecondFile),
        }
    }

    fn help_topic(self, place: usize, word: Word) -> Self
        ensures { result ≡ model.help_topic self place word }
    {
        match (self.topic, word) {
            (Some(_), _) => self.faulty(place, Fault::NotExpected),
            (None, Word::Command(command)) => self.commanding(Command::Help, Some(command)),
            (None, _) => self.faulty(place, Fault::NoSuchCommand),
        }
    }

    fn named(self, command: Command, place: usize, word: Word) -> Self
        ensures { result ≡ model.named self command place word }
    {
        match command {
            Command::Report => self.with_file(place),
            Command::Mend => self.only_file(place),
            Command::Help => self.help_topic(place, word),
            Command::Version => self.faulty(place, Fault::NotExpected),
        }
    }

    fn output(self, place: usize) -> Self
        ensures { result ≡ model.output self place }
    {
        match self.output {
            None => self.expecting(Next::Output),
            Some(_) => self.faulty(place, Fault::SecondOutput),
        }
    }

    fn option(self, command: Command, place: usize, word: Word) -> Self
        ensures { result ≡ model.option self command place word }
    {
        match (word, command) {
            (Word::HelpOption, _) => self.commanding(Command::Help, Some(command)),
            (Word::EndOfOptions, _) => self.expecting(Next::Name),
            (Word::OutputOption, Command::Mend) => self.output(place),
            _ => self.faulty(place, Fault::NoSuchOption),
        }
    }

    fn next_word(self, command: Command, place: usize, word: Word) -> Self
        ensures { result ≡ model.next_word self command place word }
    {
        if may_name(self.next, word) {
            self.named(command, place, word)
        } else {
            self.option(command, place, word)
        }
    }

    // What is missing where no argument is to come.
    fn lacking(self) -> Option<Fault>
        ensures { result ≡ model.lacking self.command self.next self.files }
    {
        match (self.command, self.next, self.files) {
            (None, _, _) => Some(Fault::NoCommand),
            (_, Next::Output, _) => Some(Fault::NoOutput),
            (Some(Command::Report | Command::Mend), _, Files::None) => Some(Fault::NoFile),
            _ => None,
        }
    }
}

// Whether an argument with this word, if all are in order, is one of the files that a report is asked on.
pub fn reports_on(invocation: Invocation, word: Word) -> bool
    ensures { result ≡ model.reports_on invocation word }
{
    invocation.command == Some(Command::Report) && may_name(invocation.next, word)
}

// One argument more: its number, and what it is.
pub fn step(invocation: Invocation, place: usize, word: Word) -> Invocation
    ensures { result ≡ model.step invocation place word }
{
    match (invocation.misuse, invocation.next, invocation.command) {
        (Some(_), _, _) => invocation,
        (None, Next::Output, _) => invocation.with_output(place),
        (None, _, None) => invocation.first_word(place, word),
        (None, _, Some(command)) => invocation.next_word(command, place, word),
    }
}

// No argument more.
pub fn finish(invocation: Invocation) -> Invocation
    ensures { result ≡ model.finish invocation }
{
    match (invocation.misuse, invocation.lacking()) {
        (None, Some(fault)) => invocation.faulty(0, fault),
        _ => invocation,
    }
}
