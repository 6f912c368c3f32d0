ghost use Rattle.std.specs.Prelude.{◌≡◌};
ghost use Rattle.values.specs.Rows.{all_below, uses};

use crate::members::Members;

// A type of the table, over types with lower numbers: an array's elements, a record's members, a union's constituents.
#[derive(Clone, Copy, PartialEq)]
pub enum Row {
    Array(u8),
    Record(Members),
    Union(Members),
}

impl Row {
    // Whether the row uses only numbers below a limit.
    pub fn uses_below(self, limit: u8) -> bool
        ensures { result ≡ all_below limit (uses self) }
    {
        match self {
            Row::Array(element) => element < limit,
            Row::Record(members) => members.all_below(limit),
            Row::Union(constituents) => constituents.all_below(limit),
        }
    }
}
