ghost use Rattle.std.specs.Prelude.{◌≡◌};
ghost use Rattle.merging.specs.Operations.{OperationLaws, combining};
ghost use Rattle.merging.specs.Combining.{combining_laws};

use crate::operator::Operator;

// An operation on values that makes a merging operator: a merge starts at the neutral value, and each part is combined
// with it before it counts, as are the tallies with one another.
pub trait Operation {
    type Value;

    ghost neutral: { Self.Value };

    ghost combine: { Self.Value → Self.Value → Self.Value };

    fn neutral() -> Self::Value
        ensures { result ≡ neutral };

    fn combine(a: Self::Value, b: Self::Value) -> Self::Value
        ensures { result ≡ combine a b };

    ghost laws: { OperationLaws neutral combine };
}

impl<M: Operation> Operator for M {
    type Part = M::Value;

    type Tally = M::Value;

    type Closed = M::Value;

    ghost is = { combining M.neutral M.combine };

    ghost lawful = { combining_laws M.laws };

    fn start() -> M::Value {
        M::neutral()
    }

    fn tally(part: M::Value) -> M::Value {
        M::combine(M::neutral(), part)
    }

    fn join(a: M::Value, b: M::Value) -> M::Value {
        M::combine(a, b)
    }

    fn close(tally: M::Value) -> M::Value {
        tally
    }
}
