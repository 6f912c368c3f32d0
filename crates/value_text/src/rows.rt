ghost use Rattle.std.specs.Prelude.{◌≡◌, [], codes, IsOkAnd};
ghost use Rattle.values.specs.Tables.{rows_of};

use crate::problem::Problem;
use std::alloc::Global;
use values::{Members, Row, RowError, Types};

// Rows as array:T, record:T,T,.. and union:T,T,.., parted by `/`; `-` stands for no rows. This is no FromStr, since a
// table takes the allocator, and rows are types of another crate.
pub fn parse_types(heap: Global, text: &str) -> Result<Types, Problem>
    ensures none { text.now ≡ codes "-" → IsOkAnd result (λ types. rows_of types ≡ []) }
{
    let mut types = Types::new(heap);
    if text == "-" {
        return Ok(types);
    }
    for (i, part) in text.split('/').enumerate() {
        let place = i.saturating_add(1);
        types
            .push(parse_row(part, place)?)
            .map_err(|error| match error {
                RowError::Full => Problem::TooManyRows,
                RowError::Forward => Problem::NotLower { place },
                RowError::Memory => Problem::Memory,
            })?;
    }
    Ok(types)
}

fn parse_row(part: &str, place: usize) -> Result<Row, Problem> {
    let (sort, numbers) = part.split_once(':').ok_or(Problem::NoRow { place })?;
    let row = match sort {
        "array" => numbers.parse().ok().map(Row::Array),
        "record" => parse_members(numbers).map(Row::Record),
        "union" => parse_members(numbers).map(Row::Union),
        _ => return Err(Problem::NoRow { place }),
    };
    row.ok_or(Problem::NoMembers { place })
}

// The array and the count beside it are what Members::new takes; a ninth number has no place in it.
fn parse_members(text: &str) -> Option<Members> {
    let mut numbers = [0; 8];
    let mut count = 0u8;
    for (place, word) in text.split(',').enumerate() {
        *numbers.get_mut(place)? = word.parse().ok()?;
        count = count.saturating_add(1);
    }
    Members::new(numbers, count)
}
