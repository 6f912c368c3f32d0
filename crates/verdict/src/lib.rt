// The verdict on bytes: the module that they encode, or the first failure.
#![tactic(auto)]

mod exactness;
mod kinds;

pub use exactness::exactness_stands;
pub use kinds::{Head, Shape, Sort, UnknownKind};
