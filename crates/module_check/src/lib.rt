// Reads bytes as a module and fills a holder with it, or says why not.
#![tactic(auto)]

mod enclosing;
mod filling;
mod lists;
mod parent;
mod reader;
mod scene;
mod scope;
mod tables;

pub use filling::check;
