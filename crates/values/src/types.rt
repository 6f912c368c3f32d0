ghost use Rattle.std.specs.Prelude.{◌≡◌, true};
ghost use Rattle.values.specs.Rows.{sound};

use crate::row::Row;

// A table of types. Boolean has the number 0, integer 1, and the rows follow from 2 on, 60 at most; a row uses
// lower numbers only. A type is named by its number and no enum, since rows and modules name it so.
#[derive(Drop)]
pub struct Types {
    rows: Vec<Row>,
    ghost lawful: { sound rows.items ≡ true },
}

pub mod table;
