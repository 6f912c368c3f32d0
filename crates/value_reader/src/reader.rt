ghost use Rattle.std.specs.Prelude.{◌≡◌, ℕ, ◌+◌, ◌<◌, ◌≤◌, true, length};
ghost use Rattle.values.specs.Tables.{rows_of};
ghost use Rattle.values.specs.Rows.{all_below, used, table, trees_of, tree_at};
ghost use Rattle.value_reader.specs.Exactness.{Exact, HoldsNumber};
ghost use Rattle.value_reader.specs.Reading.{read, reads, chosen, repeated, array_at, record_at, union_at, read_number, read_whole};

use crate::bodies::{boolean, integer, is_indexed};
use crate::bytes::bytes_at;
use crate::heads::begin;
use crate::kind::Kind;
use values::{Members, Refusal, Row, Types};

// A table of types, and bytes that are read as values of its types.
#[derive(Clone, Copy)]
struct Source<'a> {
    types: &'a Types,
    bytes: &'a [u8],
}

// Reads values of the type with this number.
#[derive(Clone, Copy)]
struct Reader<'a> {
    source: Source<'a>,
    number: u8,
    ghost declared: { number < 2 + length (rows_of source.types.now) },
}

// Reads the parts of values of a type, which are of types with lower numbers.
#[derive(Clone, Copy)]
struct Parts<'a> {
    whole: Reader<'a>,
    members: Members,
    ghost lower: { all_below whole.number (used members) ≡ true },
}

impl Reader<'_> {
    // Where the value at `at` ends.
    #[cycle(parts_of_values)]
    fn value(&self, at: usize) -> Result<usize, Refusal>
        ensures { result ≡ read (tree_at (rows_of self.now.source.types.now) self.now.number) self.now.source.bytes.now at }
    {
        let whole = *self;
        let source = whole.source;
        match source.types.row(whole.number) {
            Some(Row::Array(number)) => Reader { source, number }.array(at),
            Some(Row::Record(members)) => Parts { whole, members }.record(at),
            Some(Row::Union(members)) => Parts { whole, members }.union(at),
            None if whole.number == 0 => boolean(source.bytes, at),
            None => integer(source.bytes, at),
        }
    }

    // Where the array at `at` ends, whose elements are of the type.
    #[cycle(parts_of_values)]
    fn array(&self, at: usize) -> Result<usize, Refusal>
        ensures { result
            ≡ array_at (read (tree_at (rows_of self.now.source.types.now) self.now.number) self.now.source.bytes.now)
            self.now.source.bytes.now at }
    {
        let bytes = self.source.bytes;
        if let Some(end) = begin(bytes, at, Kind::Array)? {
            return Ok(end);
        }
        if !is_indexed(bytes, at + 1) {
            return Err(Refusal::Strange(at));
        }
        self.values(at + 7, u16::from_be_bytes(bytes_at(bytes, at + 5)))
    }

    // Where `count` values end, one behind the other.
    #[cycle(parts_of_values)]
    fn values(&self, at: usize, count: u16) -> Result<usize, Refusal>
        ensures { result
            ≡ repeated count (read (tree_at (rows_of self.now.source.types.now) self.now.number) self.now.source.bytes.now) at }
    {
        let mut end = at;
        for _ in 0..count {
            end = self.value(end)?;
        }
        Ok(end)
    }
}

impl Parts<'_> {
    #[cycle(parts_of_values)]
    fn record(&self, at: usize) -> Result<usize, Refusal>
        ensures { result
            ≡ record_at (length (used self.now.members))
            (reads (trees_of (table (rows_of self.now.whole.source.types.now)) (used self.now.members)) self.now.whole.source.bytes.now)
            self.now.whole.source.bytes.now at }
    {
        let bytes = self.whole.source.bytes;
        if let Some(end) = begin(bytes, at, Kind::Record)? {
            return Ok(end);
        }
        if bytes[at + 1] != self.members.count() {
            return Err(Refusal::Clash(at));
        }
        self.values(at + 2)
    }

    // Where values of the members' types end, one behind the other.
    #[cycle(parts_of_values)]
    fn values(&self, at: usize) -> Result<usize, Refusal>
        ensures { result
            ≡ reads (trees_of (table (rows_of self.now.whole.source.types.now)) (used self.now.members)) self.now.whole.source.bytes.now at }
    {
        let source = self.whole.source;
        let mut end = at;
        for &number in self.members.as_slice() {
            end = Reader { source, number }.value(end)?;
        }
        Ok(end)
    }

    #[cycle(parts_of_values)]
    fn union(&self, at: usize) -> Result<usize, Refusal>
        ensures { result
            ≡ union_at
            (λ tag. chosen (trees_of (table (rows_of self.now.whole.source.types.now)) (used self.now.members)) tag self.now.whole.source.bytes.now)
            self.now.whole.source.bytes.now at }
    {
        let bytes = self.whole.source.bytes;
        if let Some(end) = begin(bytes, at, Kind::Union)? {
            return Ok(end);
        }
        let source = self.whole.source;
        match self.members.get(bytes[at + 1]) {
            Some(number) => Reader { source, number }.value(at + 2),
            None => Err(Refusal::Clash(at)),
        }
    }
}

// Where the value at `at` ends, which is of the type with this number, or why there is none.
pub fn read_value(types: &Types, bytes: &[u8], at: usize, number: u8) -> Result<usize, Refusal>
    ensures reads { result ≡ read_number (rows_of types.now) number bytes.now at }
    ensures exact { Exact result (HoldsNumber (rows_of types.now) number bytes.now at) }
{
    if number as usize >= types.len() + 2 {
        return Err(Refusal::Undeclared(0));
    }
    let source = Source { types, bytes };
    Reader { source, number }.value(at)
}

// The same of bytes that are one value and no more.
pub fn read_whole(types: &Types, bytes: &[u8], number: u8) -> Result<usize, Refusal>
    ensures reads { result ≡ read_whole (rows_of types.now) number bytes.now }
    ensures exact { Exact result (λ end. (end ≡ length bytes.now) × HoldsNumber (rows_of types.now) number bytes.now 0 end) }
{
    let end = read_value(types, bytes, 0, number)?;
    if end < bytes.len() {
        return Err(Refusal::Cut(end));
    }
    Ok(end)
}
