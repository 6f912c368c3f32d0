// The language of modules: its records as trees and as bytes, its typing, and the holder of a checked module.
#![tactic(auto)]

mod function;
mod merge;
mod node;
mod operation;
mod program;

pub use function::Function;
pub use merge::Merge;
pub use node::{Block, End, Kind, Leaf, Node, One, Two};
pub use operation::{Binary, Unary};
pub use program::Program;
