// What the command's arguments ask for. (FORMAT 14)
#![tactic(auto)]

mod argument;
mod invocation;
mod numbers;
mod words;

pub use argument::{is_standard, word};
pub use invocation::{Fault, Files, Invocation, Misuse, Next, finish, reports_on, start, step};
pub use numbers::Numbers;
pub use words::{Command, UnknownCommand, Word};
