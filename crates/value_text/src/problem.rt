ghost use Rattle.std.specs.Prelude.{◌≡◌};
ghost use Rattle.value_text.specs.declared.problem.Problem.TheVariants.{Memory};

use std::alloc::{AllocError, AllocFailed};
use thiserror::Error;

// What is wrong with a text; places count from 1.
#[derive(Clone, Copy, Debug, Error)]
pub enum Problem {
    #[error("expected two hexadecimal digits for each byte")]
    OddDigits,
    #[error("byte {place}: expected two hexadecimal digits")]
    NoHexDigit { place: usize },
    #[error("row {place}: expected array:T, record:T,.. or union:T,..")]
    NoRow { place: usize },
    #[error("row {place}: expected 1 to 8 type numbers (an array has one)")]
    NoMembers { place: usize },
    #[error("row {place}: expected type numbers lower than the row's own")]
    NotLower { place: usize },
    #[error("expected at most 60 rows")]
    TooManyRows,
    #[error("out of memory")]
    Memory,
}

// By hand, since the derive's conversions do not say what they give.
impl From<AllocError> for Problem {
    ghost from_gives = { λ _ r. r ≡ Memory };

    fn from(_: AllocError) -> Problem {
        Problem::Memory
    }
}

impl<T: Drop> From<AllocFailed<T>> for Problem {
    ghost from_gives = { λ _ r. r ≡ Memory };

    fn from(_: AllocFailed<T>) -> Problem {
        Problem::Memory
    }
}
