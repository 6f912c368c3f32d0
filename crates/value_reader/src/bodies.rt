ghost use Rattle.std.specs.Prelude.{◌≡◌, ℕ, ◌+◌, ◌≤◌, Bool, true, length};
ghost use Rattle.value_reader.specs.Reading.{boolean_at, integer_at, indexed_at, ranged};

use crate::bytes::bytes_at;
use crate::heads::begin;
use crate::kind::Kind;
use values::Refusal;

// Where the boolean at `at` ends. A byte below 2 is a truth value: who keeps it reads a `bool`.
pub(crate) fn boolean(bytes: &[u8], at: usize) -> Result<usize, Refusal>
    ensures { result ≡ boolean_at bytes.now at }
{
    if let Some(end) = begin(bytes, at, Kind::Boolean)? {
        return Ok(end);
    }
    if bytes[at + 1] < 2 {
        Ok(at + 2)
    } else {
        Err(Refusal::Strange(at))
    }
}

// Where the integer at `at` ends. The three lines about `begin` stand in five functions: one around the rest would take it as
// a closure, and its contract be longer than they. The number is not kept, so its test is one of 32 bits and makes no Number.
pub(crate) fn integer(bytes: &[u8], at: usize) -> Result<usize, Refusal>
    ensures { result ≡ integer_at bytes.now at }
{
    if let Some(end) = begin(bytes, at, Kind::Integer)? {
        return Ok(end);
    }
    if i32::from_be_bytes(bytes_at(bytes, at + 1)) == i32::MIN {
        Err(Refusal::Strange(at))
    } else {
        Ok(at + 5)
    }
}

// Whether the body of an array stands at `at`: a proper low index and a number of elements that go together.
pub(crate) fn is_indexed(bytes: &[u8], at: usize) -> bool
    requires { at + 6 ≤ length bytes.now }
    ensures { result ≡ indexed_at bytes.now at }
{
    let low = i32::from_be_bytes(bytes_at(bytes, at));
    let count = u16::from_be_bytes(bytes_at(bytes, at + 4));
    low != i32::MIN && is_ranged(low, count)
}

// Whether so many elements may begin at a low index: it is 1 where there are none, and the highest index is at most
// 2147483647.
fn is_ranged(low: i32, count: u16) -> bool
    ensures { result ≡ ranged low count }
{
    if count == 0 && low != 1 {
        return false;
    }
    i64::from(low) + i64::from(count) <= 2147483648
}
