// Plus a second time, as an author outside would write it: the parts below 0 and those above are summed apart, so that the
// signs need no notes. What errors occurred is noted as plus notes it. A second form on purpose, since that both mean the same
// is the theorem.
#![tactic(auto)]

ghost use Rattle.std.specs.Prelude.{◌≡◌};
ghost use Rattle.merging.specs.Merged.{merged};
ghost use Rattle.sums.specs.Plus.{plus};
ghost use Rattle.outside_plus.specs.TwoSums.{two_sums, SameAsPlus};
ghost use Rattle.outside_plus.specs.SidesLaws.{two_sums_laws};

use merging::{Operator, TooManyParts, merge};
use numbers::Integer;
use sums::{Notes, amount};

// The tally: the sum of the parts below 0, the sum of those above, and notes of the errors.
#[derive(Clone, Copy, PartialEq, Eq, Debug)]
pub struct Sides {
    below: i64,
    above: i64,
    notes: Notes,
}

pub struct TwoSums;

impl Operator for TwoSums {
    type Part = Integer;

    type Tally = Sides;

    type Closed = Integer;

    ghost is = { two_sums };

    ghost lawful = { two_sums_laws };

    fn start() -> Sides {
        Sides {
            below: 0,
            above: 0,
            notes: Notes::none(),
        }
    }

    fn tally(part: Integer) -> Sides {
        let amount = amount(part);
        Sides {
            below: amount.min(0),
            above: amount.max(0),
            notes: Notes::of(part),
        }
    }

    fn join(a: Sides, b: Sides) -> Sides {
        Sides {
            below: a.below.saturating_add(b.below),
            above: a.above.saturating_add(b.above),
            notes: a.notes.join(b.notes),
        }
    }

    fn close(tally: Sides) -> Integer {
        let sum = tally.above.saturating_add(tally.below);
        tally.notes.settle(sum, tally.below < 0, tally.above > 0)
    }
}

// Summing apart means what plus means, for every list.
pub fn two_sums_stand()
    ensures { SameAsPlus }
{}

// Merges parts with this operator; the answer is that of plus.
pub fn merge_apart(parts: &[Integer]) -> Result<Integer, TooManyParts>
    ensures { result ≡ merged plus parts.now }
{
    merge::<TwoSums>(parts)
}
