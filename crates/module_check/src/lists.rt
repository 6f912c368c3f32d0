ghost use Rattle.std.specs.Prelude.{◌≡◌, ◌+◌, [], ◌∷◌, nat_lt};
ghost use Rattle.values.specs.Rows.{used};
ghost use Rattle.verdict.specs.Judging.{every};

use values::Members;

// One type.
pub(crate) fn single(number: u8) -> Members
    ensures { used result ≡ number ∷ [] }
{
    Members::new([number, 0, 0, 0, 0, 0, 0, 0], 1).unwrap()
}

// Whether each type is this one.
pub(crate) fn all_are(number: u8, a: Members) -> bool
    ensures { result ≡ every number (used a) }
{
    a.as_slice().iter().all(|&own| own == number)
}

// Whether a type is boolean, integer or one of so many rows.
pub(crate) fn is_declared(number: u8, rows: usize) -> bool
    ensures { result ≡ nat_lt number (rows + 2) }
{
    number < 2 || (number as usize) - 2 < rows
}
