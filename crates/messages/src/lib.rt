// What the command says in words. (FORMAT 14)
// Each text is put at the start of a lent buffer, with its length as the answer: nothing here uses the heap, and the clauses say what every byte becomes.
// A name or a word that is too long gives 0, and no None: the clauses `is` of `refusal` and `fault` say the length for it too.
#![tactic(auto)]

mod complaint;
mod usage;

pub use complaint::refusal;
pub use usage::{fault, help, version};
