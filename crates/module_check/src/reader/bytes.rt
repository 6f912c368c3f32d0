ghost use Rattle.std.specs.Prelude.{◌≡◌, ◌+◌, ◌<◌, ◌≤◌, [], ◌∷◌, ◌++◌, length, IfOk};
ghost use Rattle.verdict.specs.Outcomes.{first_at, whole, body, lookup};
ghost use Rattle.verdict.specs.Bodies.{sorts, end_sorts, kind_at, use_at, uses_at};
ghost use Rattle.module_check.specs.Reading.{Plain, UsesRead, BodyRead, Taken, counted_at};

use crate::lists::is_declared;
use crate::reader::Reader;
use values::{Members, Refusal};
use verdict::Sort;

impl Reader {
    // The kind byte of the record that begins here.
    pub(crate) fn first(&self, bytes: &[u8]) -> Result<u8, Refusal>
        ensures { Plain (first_at bytes.now self.now.at) (self.now.at + 1) result }
    {
        bytes.get(self.at).copied().ok_or(Refusal::Cut(self.at))
    }

    // The kind of the record that begins here at the end of a loop.
    pub(crate) fn end_kind(&self, bytes: &[u8]) -> Result<Sort, Refusal>
        ensures { Plain (kind_at end_sorts bytes.now self.now.at) (self.now.at + 1) result }
    {
        let byte = self.first(bytes)?;
        Sort::try_from(byte).map_err(|_| Refusal::Strange(self.at))
    }

    // The kind of the expression that begins here: an iter is none.
    pub(crate) fn kind(&self, bytes: &[u8]) -> Result<Sort, Refusal>
        ensures { Plain (kind_at sorts bytes.now self.now.at) (self.now.at + 1) result }
    {
        match self.end_kind(bytes)? {
            Sort::Iter => Err(Refusal::Strange(self.at)),
            sort => Ok(sort),
        }
    }

    // The body of the record that begins here; the reader goes behind it, if it is whole.
    pub(crate) fn body<const N: usize>(&mut self, bytes: &[u8]) -> Result<[u8; N], Refusal>
        ensures kept { self.new.nodes ≡ self.old.nodes }
        ensures reads { BodyRead N bytes.now self.old.at self.new.at result }
    {
        let start = self.at;
        if N >= bytes.len().saturating_sub(start) {
            return Err(Refusal::Cut(start));
        }
        let mut body = [0; N];
        body.copy_from_slice(&bytes[start + 1..start + 1 + N]);
        self.at = start + 1 + N;
        Ok(body)
    }

    // A count as the body of a record: no less than this, and eight at most.
    pub(crate) fn count(&mut self, bytes: &[u8], least: u8) -> Result<u8, Refusal>
        ensures within { IfOk result (λ n. (least ≤ n) × (n ≤ 8)) }
        ensures taken { Taken (counted_at least bytes.now self.old.at) self.old self.new result }
    {
        let start = self.at;
        let [count] = self.body::<1>(bytes)?;
        if (least..=8).contains(&count) {
            Ok(count)
        } else {
            Err(Refusal::Strange(start))
        }
    }

    // A use of a type below the number of the row behind so many. The kind bytes of a use, a function and a module are asked
    // for at one place each, and never beside others, so they are no enum.
    fn type_use(&mut self, bytes: &[u8], rows: usize) -> Result<u8, Refusal>
        ensures { Taken (use_at (rows + 2) bytes.now self.old.at) self.old self.new result }
    {
        let start = self.at;
        if self.first(bytes)? != 0x10 {
            return Err(Refusal::Strange(start));
        }
        let [number] = self.body::<1>(bytes)?;
        if is_declared(number, rows) {
            Ok(number)
        } else {
            Err(Refusal::Undeclared(start))
        }
    }

    // So many uses. Members are made of eight places and a count.
    pub(crate) fn uses(&mut self, bytes: &[u8], n: u8, rows: usize) -> Result<Members, Refusal>
        requires { (1 ≤ n) × (n ≤ 8) }
        ensures kept { self.new.nodes ≡ self.old.nodes }
        ensures forward { self.old.at ≤ self.new.at }
        ensures reads { UsesRead (uses_at n (rows + 2) bytes.now self.old.at) self.new.at result }
    {
        let mut numbers = [0; 8];
        for number in &mut numbers[..n as usize] {
            *number = self.type_use(bytes, rows)?;
        }
        Ok(Members::new(numbers, n).unwrap())
    }
}
