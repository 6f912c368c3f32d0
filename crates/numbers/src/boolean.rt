ghost use Rattle.std.specs.Prelude.{◌≡◌};
ghost use Rattle.numbers.specs.Booleans.{both, either, inverse, is_error, is_fault};

use crate::fault::{BasicFault, Fault};

// A truth value or one of the two error values that a boolean has. No Result, for the reasons at Integer, and no generic enum
// for both: `is_error` and `is_fault` are all that they share.
#[derive(Clone, Copy, Debug, PartialEq, Eq)]
pub enum Boolean {
    Proper(bool),
    Error(BasicFault),
}

impl Boolean {
    // `and` and `or` keep a match each: with the operation as a closure, the contract of one function for both would be
    // longer than the two.
    pub fn and(self, other: Boolean) -> Boolean
        ensures { result ≡ both self other }
    {
        match (self, other) {
            (Boolean::Proper(p), Boolean::Proper(q)) => Boolean::Proper(p & q),
            _ => Boolean::Error(BasicFault::Undef),
        }
    }

    pub fn or(self, other: Boolean) -> Boolean
        ensures { result ≡ either self other }
    {
        match (self, other) {
            (Boolean::Proper(p), Boolean::Proper(q)) => Boolean::Proper(p | q),
            _ => Boolean::Error(BasicFault::Undef),
        }
    }

    pub fn not(self) -> Boolean
        ensures { result ≡ inverse self }
    {
        match self {
            Boolean::Proper(p) => Boolean::Proper(!p),
            Boolean::Error(_) => Boolean::Error(BasicFault::Undef),
        }
    }

    // Whether this is an error value.
    pub fn is_error(self) -> bool
        ensures { result ≡ is_error self }
    {
        matches!(self, Boolean::Error(_))
    }

    // Whether this is that error value.
    pub fn is_fault(self, fault: Fault) -> bool
        ensures { result ≡ is_fault fault self }
    {
        match self {
            Boolean::Proper(_) => false,
            Boolean::Error(own) => Fault::from(own) == fault,
        }
    }
}
