ghost use Rattle.std.specs.Prelude.{◌≡◌, ◌↔◌, IsTrue};
ghost use Rattle.values.specs.declared.members.Members.{Members};
ghost use Rattle.values.specs.declared.row.Row.{Row};
ghost use Rattle.values.specs.Rows.{used, SameRow};

use crate::members::Members;
use crate::row::Row;

// Says what == decides: members are equal if they are the same numbers in the same order, rows if they are of one sort
// besides.
pub fn equality_stands()
    ensures members { (a b : Members) → IsTrue (⟦<Members as PartialEq>⟧.eq a b) ↔ (used a ≡ used b) }
    ensures rows { (a b : Row) → IsTrue (⟦<Row as PartialEq>⟧.eq a b) ↔ SameRow a b }
{}
