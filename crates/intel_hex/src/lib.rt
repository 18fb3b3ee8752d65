// Intel HEX: the text of a byte string, written into a lent buffer. (FORMAT 15)
// The buffer is lent and its length answered, since no library here uses the heap, and the clause `leaves` of `write` speaks of every byte of it.
#![tactic(auto)]

mod record;
mod writing;

pub use writing::write;
