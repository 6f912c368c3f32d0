ghost use Rattle.std.specs.Prelude.{◌≡◌, ◌+◌, ◌<◌, ◌≤◌, length};
ghost use Rattle.values.specs.Tables.{rows_of};
ghost use Rattle.language.specs.Sorts.{has_twin};
ghost use Rattle.verdict.specs.Modules.{counted_uses, shaped, row_at, rows_at};
ghost use Rattle.module_check.specs.Reading.{Plain, UsesRead, RowsRead};

use crate::parent::judging::lead;
use crate::reader::Reader;
use crate::tables::Tables;
use values::{Members, Refusal, Row, Types};
use verdict::Shape;

// Whether the table has a twin of a row.
fn is_twin(types: &Types, row: Row) -> bool
    ensures { result ≡ has_twin (rows_of types.now) row }
{
    let mut rows = types.as_slice().iter();
    // The row's kind is asked once, and not again at each earlier row.
    match row {
        Row::Array(element) => {
            rows.any(|earlier| matches!(earlier, Row::Array(own) if *own == element))
        }
        Row::Record(members) => {
            rows.any(|earlier| matches!(earlier, Row::Record(own) if *own == members))
        }
        Row::Union(members) => {
            rows.any(|earlier| matches!(earlier, Row::Union(own) if *own == members))
        }
    }
}

impl Reader {
    // One to eight uses behind their count.
    fn counted(&mut self, bytes: &[u8], rows: usize) -> Result<Members, Refusal>
        ensures kept { self.new.nodes ≡ self.old.nodes }
        ensures reads { UsesRead (counted_uses (rows + 2) bytes.now self.old.at) self.new.at result }
    {
        let count = self.count(bytes, 1)?;
        self.uses(bytes, count, rows)
    }

    // The row of this kind that begins here, behind so many.
    fn shaped(&mut self, bytes: &[u8], shape: Shape, rows: usize) -> Result<Row, Refusal>
        requires { self.old.at < length bytes.now }
        ensures kept { self.new.nodes ≡ self.old.nodes }
        ensures reads { Plain (shaped shape (rows + 2) bytes.now self.old.at) self.new.at result }
    {
        match shape {
            Shape::Array => {
                self.at += 1;
                let element = self.uses(bytes, 1, rows)?;
                Ok(Row::Array(lead(element)))
            }
            Shape::Record => Ok(Row::Record(self.counted(bytes, rows)?)),
            Shape::Union => Ok(Row::Union(self.counted(bytes, rows)?)),
        }
    }

    // The next row of a table.
    fn row(&mut self, bytes: &[u8], types: &Types) -> Result<Row, Refusal>
        ensures kept { self.new.nodes ≡ self.old.nodes }
        ensures reads { Plain (row_at bytes.now (rows_of types.now) self.old.at) self.new.at result }
    {
        let start = self.at;
        let byte = self.first(bytes)?;
        let shape = Shape::try_from(byte).map_err(|_| Refusal::Strange(start))?;
        let row = self.shaped(bytes, shape, types.len())?;
        if is_twin(types, row) {
            return Err(Refusal::Twin(start));
        }
        Ok(row)
    }

    // So many rows, behind those of the table.
    pub(crate) fn rows(
        &mut self,
        bytes: &[u8],
        tables: &mut Tables,
        count: u8,
    ) -> Result<(), Refusal>
        ensures kept { self.new.nodes ≡ self.old.nodes }
        ensures functions { tables.new.functions ≡ tables.old.functions }
        ensures reads { RowsRead (rows_at count bytes.now (rows_of tables.old.types) self.old.at) (rows_of tables.new.types) self.new.at result }
    {
        for _ in 0..count {
            let row = self.row(bytes, &tables.types)?;
            // The row fits: only memory can be wanting.
            tables.types.push(row).map_err(|_| Refusal::Memory)?;
        }
        Ok(())
    }
}
