// The store of a run: bytes that are lent to it, on which values stand one behind the other up to a top. A run writes
// to its store through these functions alone. Scalars are written by the value reader's own functions; that
// something fits is said by one definition in all contracts but that of copies.
// Store and top stay two parameters: a struct that held both would have to say in each contract besides that it still
// holds the same loan.
#![tactic(auto)]

mod bytes;
mod heads;
mod scalars;

pub use bytes::{lay_copy, remove_beneath};
pub use heads::{Head, lay_head};
pub use scalars::{lay, lay_undefs};
pub use value_reader::lay_bytes;
