// Merging operators and the merging of parts with them, in every order and grouping.
#![tactic(auto)]

mod bundle;
mod operation;
mod operator;
mod orders;

pub use bundle::{BooleanMerge, IntegerMerge, Operators, merge_booleans, merge_integers};
pub use operation::Operation;
pub use operator::Operator;
pub use orders::{MOST, TooManyParts, grouping_stands, merge, merge_backwards, merge_halves};
