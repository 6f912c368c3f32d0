ghost use Rattle.std.specs.Prelude.{◌≡◌};
ghost use Rattle.value_reader.specs.Skipping.{head_at, skipped, Skips};

use crate::bytes::bytes_at;
use crate::kind::Kind;

// What a record's kind and body say without its type: the bytes that they take, and the values that stand in the
// record.
#[derive(Clone, Copy)]
pub(crate) struct Head {
    long: usize,
    inner: usize,
}

// The head of the record at `at`, if there is one of a known kind with a whole body.
fn head_at(bytes: &[u8], at: usize) -> Option<Head>
    ensures { result ≡ head_at bytes.now at }
{
    let kind = Kind::try_from(*bytes.get(at)?).ok()?;
    let long = kind.head_size();
    if bytes.len() - at < long {
        return None;
    }
    let inner = match kind {
        Kind::Array => u16::from_be_bytes(bytes_at(bytes, at + 5)) as usize,
        Kind::Record => bytes[at + 1] as usize,
        Kind::Union => 1,
        Kind::Boolean | Kind::Integer | Kind::Error => 0,
    };
    Some(Head { long, inner })
}

// Where the value at `at` ends. Its type is not asked: each record says how many values stand in it, so a number of
// records that are still owed suffices.
pub fn skip_value(bytes: &[u8], at: usize) -> Option<usize>
    ensures passes { result ≡ skipped bytes.now at }
    ensures skips { Skips bytes.now at result }
{
    let mut end = at;
    let mut owed = 1;
    while owed > 0 {
        let head = head_at(bytes, end)?;
        end += head.long;
        owed = owed - 1 + head.inner;
        if owed > bytes.len() - end {
            return None;
        }
    }
    Some(end)
}
