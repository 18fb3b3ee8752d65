// Values that hold the borrowed bytes, with the Rust's method names: each method is thin over a function on slice and numbers.
#![tactic(auto)]

mod plane;
mod pool;
mod table;

pub use plane::EccPlane;
pub use pool::Pool;
pub use table::RecordTable;
