ghost use Rattle.std.specs.Prelude.{◌≡◌};
ghost use Rattle.numbers.specs.Integers.{barred, is_error, is_fault, judged};

use crate::fault::Fault;
use crate::number::Number;

// A proper number or one of the six error values. An enum of its own: a Result could have no Display of ours, and `?` would
// carry an error value past a rule of arithmetic.
#[derive(Clone, Copy, Debug, PartialEq, Eq)]
pub enum Integer {
    Proper(Number),
    Error(Fault),
}

impl Integer {
    // An exact value judged against the range: itself, or the over on its side.
    pub fn judge(value: i64) -> Integer
        ensures { result ≡ judged value }
    {
        if value > 2147483647 {
            return Integer::Error(Fault::PosOver);
        }
        if value < -2147483647 {
            return Integer::Error(Fault::NegOver);
        }
        Integer::Proper(Number::new(value as i32).unwrap())
    }

    // Whether this is an error value.
    pub fn is_error(self) -> bool
        ensures { result ≡ is_error self }
    {
        matches!(self, Integer::Error(_))
    }

    // Whether this is that error value.
    pub fn is_fault(self, fault: Fault) -> bool
        ensures { result ≡ is_fault fault self }
    {
        self == Integer::Error(fault)
    }

    // Whether this is undef, miss_elt or zero_divide, to which no rule of arithmetic applies.
    pub fn is_barred(self) -> bool
        ensures { result ≡ barred self }
    {
        matches!(
            self,
            Integer::Error(Fault::Undef | Fault::MissElt | Fault::ZeroDivide)
        )
    }
}
