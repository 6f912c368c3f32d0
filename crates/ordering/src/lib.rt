// The order of integers that carry error values: max and min, and the comparisons.
#![tactic(auto)]

mod comparison;
mod ranking;

pub use comparison::{at_least, at_most, compare, equal, greater, less, unequal};
pub use ranking::{max, min, ranking_stands};
