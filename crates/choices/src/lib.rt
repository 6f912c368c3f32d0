// Max, min, and, or: operators whose tally is one of the parts or a single truth value.
#![tactic(auto)]

mod extremes;
mod truths;

pub use extremes::{Max, Min, max_stands, min_stands};
pub use truths::{And, Or, and_stands, or_stands};
