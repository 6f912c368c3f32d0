ghost use Rattle.std.specs.Prelude.{◌≡◌};
ghost use Rattle.values.specs.declared.row_error.RowError.TheVariants.{Memory};

use std::alloc::AllocFailed;

// Why a row was not added to a table of types.
#[derive(Clone, Copy, PartialEq, Debug)]
pub enum RowError {
    // There are 60 rows.
    Full,
    // The row uses its own number or a higher one.
    Forward,
    // There is no memory.
    Memory,
}

// By hand, since what a derive writes does not say what it gives.
impl<T: Drop> From<AllocFailed<T>> for RowError {
    ghost from_gives = { λ _ r. r ≡ Memory };

    fn from(_r: AllocFailed<T>) -> RowError {
        RowError::Memory
    }
}
