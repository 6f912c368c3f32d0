ghost use Rattle.std.specs.Prelude.{◌≡◌, ◌-◌, ◌+◌, true, false, take, drop, MatchOption};
ghost use Rattle.values.specs.Values.{integer, boolean, error};
ghost use Rattle.value_reader.specs.Kinds.{code_of, head_size};
ghost use Rattle.value_reader.specs.Scalars.{begins, basic_error};

use crate::bytes::lay_bytes;
use crate::kind::Kind;
use crate::scalar::Scalar;
use numbers::{BasicFault, Fault, Number};

// The body of the record at `at`, if it is of this kind and whole.
fn body(bytes: &[u8], at: usize, kind: Kind) -> Option<&[u8]>
    ensures { MatchOption result (begins (code_of kind) (head_size kind) bytes.now at ≡ false) (λ body.
        (begins (code_of kind) (head_size kind) bytes.now at ≡ true)
        × (body.now ≡ take (head_size kind - 1) (drop (at + 1) bytes.now))) }
{
    if at >= bytes.len() || bytes.len() - at < kind.head_size() || bytes[at] != u8::from(kind) {
        return None;
    }
    Some(&bytes[at + 1..at + kind.head_size()])
}

impl Scalar for Number {
    ghost value = { integer };

    fn read(bytes: &[u8], at: usize) -> Option<Number> {
        let &[a, b, c, d] = body(bytes, at, Kind::Integer)? else {
            return None;
        };
        Number::new(i32::from_be_bytes([a, b, c, d]))
    }

    fn write(self, bytes: &mut [u8], at: usize) -> Option<usize> {
        let [a, b, c, d] = self.get().to_be_bytes();
        lay_bytes(bytes, at, &[Kind::Integer.into(), a, b, c, d])
    }
}

impl Scalar for bool {
    ghost value = { boolean };

    fn read(bytes: &[u8], at: usize) -> Option<bool> {
        let &[truth] = body(bytes, at, Kind::Boolean)? else {
            return None;
        };
        match truth {
            0 => Some(false),
            1 => Some(true),
            _ => None,
        }
    }

    fn write(self, bytes: &mut [u8], at: usize) -> Option<usize> {
        lay_bytes(bytes, at, &[Kind::Boolean.into(), self as u8])
    }
}

impl Scalar for Fault {
    ghost value = { error };

    fn read(bytes: &[u8], at: usize) -> Option<Fault> {
        let &[code] = body(bytes, at, Kind::Error)? else {
            return None;
        };
        Fault::try_from(code).ok()
    }

    fn write(self, bytes: &mut [u8], at: usize) -> Option<usize> {
        lay_bytes(bytes, at, &[Kind::Error.into(), self.into()])
    }
}

impl Scalar for BasicFault {
    ghost value = { basic_error };

    fn read(bytes: &[u8], at: usize) -> Option<BasicFault> {
        BasicFault::try_from(Fault::read(bytes, at)?).ok()
    }

    fn write(self, bytes: &mut [u8], at: usize) -> Option<usize> {
        Fault::from(self).write(bytes, at)
    }
}
