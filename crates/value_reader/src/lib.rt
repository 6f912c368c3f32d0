// Reads bytes as values of a type: front to back, with the first failure as the answer.
// Functions take all the bytes and an offset, since a refusal names the offset from the front: a slice of the rest would
// have to carry it besides.
#![tactic(auto)]

mod bodies;
mod bytes;
mod heads;
mod kind;
mod reader;
mod scalar;
mod skip;

pub use bytes::lay_bytes;
pub use kind::{Kind, UnknownKind};
pub use reader::{read_value, read_whole};
pub use scalar::Scalar;
pub use skip::skip_value;
