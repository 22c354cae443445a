//! Lists of numbers whose running sums are found fast.
#![tactic(auto)]

mod position;
mod sums;

pub use position::Position;
pub use sums::PrefixSums;
