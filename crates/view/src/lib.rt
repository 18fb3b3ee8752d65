// The reader, after view.rs: parse and lookups over a caller's bytes.
#![tactic(auto)]

mod directory;
mod header;
mod regions;
mod vote;

pub use header::{Header, parse};
pub use regions::{ecc_for, find_region, region_at};
