// Tables of probe readings, as comma-separated text.
#![tactic(auto)]

mod field;
mod table;

pub use field::reading;
pub use table::{Column, Misread, read_table};
