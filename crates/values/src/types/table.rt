ghost use Rattle.std.specs.Prelude.{◌≡◌, [], length};
ghost use Rattle.values.specs.Tables.{Pushed, row_of, rows_of};

use crate::row::Row;
use crate::row_error::RowError;
use crate::types::Types;
use std::alloc::Global;

impl Types {
    // A table without rows.
    pub fn new(heap: Global) -> Types
        ensures { rows_of result ≡ [] }
    {
        let rows = Vec::new(heap);
        Types { rows }
    }

    // How many rows there are.
    pub fn len(&self) -> usize
        ensures { result ≡ length (rows_of self.now) }
    {
        self.rows.len()
    }

    // The rows, the first with the number 2.
    pub fn as_slice(&self) -> &[Row]
        ensures { result.now ≡ rows_of self.now }
    {
        self.rows.as_slice()
    }

    // The row of a type number, if the table has one: boolean and integer are no rows.
    pub fn row(&self, number: u8) -> Option<Row>
        ensures { result ≡ row_of (rows_of self.now) number }
    {
        let place = number.checked_sub(2)?;
        self.rows.get(place as usize).copied()
    }

    // Adds a row under the next number, and answers it.
    pub fn push(&mut self, row: Row) -> Result<u8, RowError>
        ensures { Pushed (rows_of self.old) row (rows_of self.new) result }
    {
        if self.rows.len() >= 60 {
            return Err(RowError::Full);
        }
        let number = self.rows.len() as u8 + 2;
        if !row.uses_below(number) {
            return Err(RowError::Forward);
        }
        self.rows.push(row)?;
        Ok(number)
    }
}
