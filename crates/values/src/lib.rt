// Values of a small language as bytes, their types, and the refusals of its calls.
#![tactic(auto)]

mod encodings;
mod equality;
mod members;
mod refusal;
mod row;
mod row_error;
mod types;

pub use encodings::encodings_stand;
pub use equality::equality_stands;
pub use members::Members;
pub use refusal::Refusal;
pub use row::Row;
pub use row_error::RowError;
pub use types::Types;
