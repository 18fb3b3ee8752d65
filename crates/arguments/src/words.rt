// What an argument may be. (FORMAT 14)
ghost use Rattle.std.specs.Prelude.{◌≡◌};
ghost use Rattle.arguments.specs.Arguments.{command_numbered, word_numbered};

#[derive(Clone, Copy, PartialEq, Eq)]
pub enum Command {
    Report,
    Mend,
    Help,
    Version,
}

// A number that no command has.
#[derive(Clone, Copy, PartialEq, Eq)]
pub struct UnknownCommand(pub u8);

// Commands are known by these numbers too.
impl TryFrom<u8> for Command {
    type Error = UnknownCommand;

    ghost try_from_gives = { λ number command. command ≡ command_numbered number };

    fn try_from(number: u8) -> Result<Command, UnknownCommand> {
        match number {
            1 => Ok(Command::Report),
            2 => Ok(Command::Mend),
            3 => Ok(Command::Help),
            4 => Ok(Command::Version),
            _ => Err(UnknownCommand(number)),
        }
    }
}

#[derive(Clone, Copy, PartialEq, Eq)]
pub enum Word {
    Name,
    Command(Command),
    OutputOption,
    EndOfOptions,
    HelpOption,
    VersionOption,
    OtherOption,
}

// Words are known by these numbers too, of which any past the last is another option's.
impl From<u8> for Word {
    ghost from_gives = { λ number word. word ≡ word_numbered number };

    fn from(number: u8) -> Word {
        match number {
            0 => Word::Name,
            1 => Word::Command(Command::Report),
            2 => Word::Command(Command::Mend),
            3 => Word::Command(Command::Help),
            4 => Word::Command(Command::Version),
            5 => Word::OutputOption,
            6 => Word::EndOfOptions,
            7 => Word::HelpOption,
            8 => Word::VersionOption,
            _ => Word::OtherOption,
        }
    }
}
