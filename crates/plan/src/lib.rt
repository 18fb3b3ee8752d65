// A plan's rows, checked one by one, and the sizes of its image. (FORMAT 9)
#![tactic(auto)]

mod kinds;
mod rows;
mod sizes;

pub use kinds::Kinds;
pub use rows::{Row, check_row, check_rows};
pub use sizes::check_sizes;
