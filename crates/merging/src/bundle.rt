ghost use Rattle.std.specs.Prelude.{◌≡◌};
ghost use Rattle.merging.specs.Operators.{meaning};
ghost use Rattle.merging.specs.Bundles.{Merges, merged_by, merged_booleans_by};

use crate::operator::Operator;
use crate::orders::{TooManyParts, merge};
use numbers::{Boolean, Integer};

// The six operators that forall merges with. `merges` says in one value what they mean.
pub trait Operators {
    type Plus: Operator<Part = Integer, Closed = Integer>;

    type Times: Operator<Part = Integer, Closed = Integer>;

    type Max: Operator<Part = Integer, Closed = Integer>;

    type Min: Operator<Part = Integer, Closed = Integer>;

    type And: Operator<Part = Boolean, Closed = Boolean>;

    type Or: Operator<Part = Boolean, Closed = Boolean>;

    ghost merges: { Merges };

    ghost plus_is: { merges.plus ≡ meaning Self.Plus.is };

    ghost times_is: { merges.times ≡ meaning Self.Times.is };

    ghost max_is: { merges.max ≡ meaning Self.Max.is };

    ghost min_is: { merges.min ≡ meaning Self.Min.is };

    ghost and_is: { merges.both ≡ meaning Self.And.is };

    ghost or_is: { merges.either ≡ meaning Self.Or.is };
}

// The operators on integers, by name.
#[derive(Clone, Copy, PartialEq, Eq, Debug)]
pub enum IntegerMerge {
    Plus,
    Times,
    Max,
    Min,
}

// The operators on booleans, by name.
#[derive(Clone, Copy, PartialEq, Eq, Debug)]
pub enum BooleanMerge {
    And,
    Or,
}

// Merges integers with the operator that is named. `merge_booleans` has other kinds and other operators: a trait over the
// kinds would only move the two matches into its impls.
pub fn merge_integers<S: Operators>(
    kind: IntegerMerge,
    parts: &[Integer],
) -> Result<Integer, TooManyParts>
    ensures { result ≡ merged_by S.merges kind parts.now }
{
    match kind {
        IntegerMerge::Plus => merge::<S::Plus>(parts),
        IntegerMerge::Times => merge::<S::Times>(parts),
        IntegerMerge::Max => merge::<S::Max>(parts),
        IntegerMerge::Min => merge::<S::Min>(parts),
    }
}

// Merges booleans with the operator that is named.
pub fn merge_booleans<S: Operators>(
    kind: BooleanMerge,
    parts: &[Boolean],
) -> Result<Boolean, TooManyParts>
    ensures { result ≡ merged_booleans_by S.merges kind parts.now }
{
    match kind {
        BooleanMerge::And => merge::<S::And>(parts),
        BooleanMerge::Or => merge::<S::Or>(parts),
    }
}
