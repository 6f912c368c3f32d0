ghost use Rattle.std.specs.Prelude.{◌<◌, IfOk, vec_len};

use crate::field::reading;
use numbers::Integer;
use std::alloc::{AllocError, AllocFailed, Global};
use thiserror::Error;

// A column of a table: its name and its readings from top to bottom.
#[derive(Drop)]
pub struct Column {
    pub name: String,
    pub readings: Vec<Integer>,
}

// What is wrong with a table, and where: lines and columns count from 1.
#[derive(Clone, Copy, Debug, Drop, Error)]
pub enum Misread {
    #[error("the table is empty: expected a line of column names")]
    NoHeader,
    #[error("line {line}, column {column}: expected a whole number, an empty field, miss, or the word of an error value")]
    NoReading {
        line: usize,
        column: usize,
    },
    #[error("line {line}: expected {columns} fields, as the first line has, and there are more")]
    TooManyFields {
        line: usize,
        columns: usize,
    },
    #[error("line {line}: expected {columns} fields, as the first line has, and there are {fields}")]
    TooFewFields {
        line: usize,
        fields: usize,
        columns: usize,
    },
    #[error("out of memory")]
    Memory,
}

// By hand, since the derive would have the variant hold the error.
impl From<AllocError> for Misread {
    fn from(_: AllocError) -> Misread {
        Misread::Memory
    }
}

impl<T: Drop> From<AllocFailed<T>> for Misread {
    fn from(_: AllocFailed<T>) -> Misread {
        Misread::Memory
    }
}

// Reads a table: a line of column names, then a line of readings for each point.
pub fn read_table(heap: Global, text: &str) -> Result<Vec<Column>, Misread>
    ensures { IfOk result (λ columns. 0 < vec_len columns) }
{
    let mut lines = text.lines();
    let mut columns = read_header(heap, lines.next().ok_or(Misread::NoHeader)?)?;
    for (i, line) in lines.enumerate() {
        read_row(line, i.saturating_add(2), &mut columns)?;
    }
    if columns.is_empty() {
        return Err(Misread::NoHeader);
    }
    Ok(columns)
}

fn read_header(heap: Global, line: &str) -> Result<Vec<Column>, Misread> {
    let mut columns = Vec::new(heap);
    for name in line.split(',') {
        let name = String::from_str(heap, name.trim_ascii())?;
        columns.push(Column {
            name,
            readings: Vec::new(heap),
        })?;
    }
    Ok(columns)
}

// Adds a line's readings to the columns; none is left out and none is over.
fn read_row(text: &str, line: usize, columns: &mut Vec<Column>) -> Result<(), Misread> {
    let mut fields = text.split(',');
    let count = columns.len();
    for (i, column) in columns.iter_mut().enumerate() {
        let Some(field) = fields.next() else {
            return Err(Misread::TooFewFields {
                line,
                fields: i,
                columns: count,
            });
        };
        let Some(value) = reading(field.trim_ascii()) else {
            return Err(Misread::NoReading {
                line,
                column: i.saturating_add(1),
            });
        };
        column.readings.push(value)?;
    }
    match fields.next() {
        Some(_) => Err(Misread::TooManyFields {
            line,
            columns: count,
        }),
        None => Ok(()),
    }
}
