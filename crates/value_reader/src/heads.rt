ghost use Rattle.std.specs.Prelude.{◌≡◌, ℕ, ◌+◌, ◌<◌, ◌≤◌, length, Some, None, Ok, Err, MatchResult};
ghost use Rattle.value_reader.specs.Kinds.{code_of, head_size, is_arithmetic};
ghost use Rattle.value_reader.specs.Reading.{fault_at, opens};

use crate::kind::Kind;
use numbers::Fault;
use values::Refusal;

// The error value at `at`, of a type of this kind: where it ends.
fn fault(bytes: &[u8], at: usize, own: Kind) -> Result<usize, Refusal>
    requires { at < length bytes.now }
    ensures { MatchResult result
        (λ end. fault_at (is_arithmetic own) bytes.now at ≡ Ok (Some end))
        (λ refusal. fault_at (is_arithmetic own) bytes.now at ≡ Err refusal) }
{
    let &code = bytes.get(at + 1).ok_or(Refusal::Cut(at))?;
    match Fault::try_from(code) {
        Ok(fault) if own.admits(fault) => Ok(at + 2),
        _ => Err(Refusal::Clash(at)),
    }
}

// The head of the record at `at`, of a type of this kind: where an error value ends, or nothing if the record is of
// the type's own kind and whole so far.
pub(crate) fn begin(bytes: &[u8], at: usize, own: Kind) -> Result<Option<usize>, Refusal>
    ensures opens { result ≡ opens (code_of own) (head_size own) (is_arithmetic own) bytes.now at }
    ensures whole { result ≡ Ok None → at + head_size own ≤ length bytes.now }
{
    let &first = bytes.get(at).ok_or(Refusal::Cut(bytes.len()))?;
    let kind = Kind::try_from(first).map_err(|_| Refusal::Clash(at))?;
    if kind == Kind::Error {
        return Ok(Some(fault(bytes, at, own)?));
    }
    if kind != own {
        return Err(Refusal::Clash(at));
    }
    if bytes.len() - at < own.head_size() {
        return Err(Refusal::Cut(at));
    }
    Ok(None)
}
