// Types, bytes and values as text, for people at a command line.
#![tactic(auto)]

mod hex;
mod problem;
mod rows;
mod show;

pub use hex::parse_bytes;
pub use problem::Problem;
pub use rows::parse_types;
pub use show::show_value;
