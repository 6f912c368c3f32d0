// Integers and booleans that carry VAL's error values.
#![tactic(auto)]

mod boolean;
mod fault;
mod integer;
mod number;
mod words;

pub use boolean::Boolean;
pub use fault::{BasicFault, Fault, IntegersOnly, UnknownCode};
pub use integer::Integer;
pub use number::Number;
