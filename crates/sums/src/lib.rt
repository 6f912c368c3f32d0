// Plus: the exact sum of many integers, whatever their order.
#![tactic(auto)]

mod notes;

ghost use Rattle.std.specs.Prelude.{◌≡◌};
ghost use Rattle.sums.specs.Plus.{amount, plus};
ghost use Rattle.sums.specs.Sums.{PlusSums};
ghost use Rattle.sums.specs.PlusLaws.{plus_laws};

use merging::Operator;
pub use notes::Notes;
use numbers::Integer;

// The tally of plus: the exact sum of the proper parts, whether one of them is negative and one positive, and notes of the
// others. Flags, since the sum does not say of which signs its parts were.
#[derive(Clone, Copy, PartialEq, Eq, Debug)]
pub struct Sum {
    sum: i64,
    negative: bool,
    positive: bool,
    notes: Notes,
}

pub struct Plus;

impl Operator for Plus {
    type Part = Integer;

    type Tally = Sum;

    type Closed = Integer;

    ghost is = { plus };

    ghost lawful = { plus_laws };

    fn start() -> Sum {
        Sum {
            sum: 0,
            negative: false,
            positive: false,
            notes: Notes::none(),
        }
    }

    fn tally(part: Integer) -> Sum {
        let sum = amount(part);
        Sum {
            sum,
            negative: sum < 0,
            positive: sum > 0,
            notes: Notes::of(part),
        }
    }

    // 32,768 proper numbers stay far below 64 bits, so that no sum is ever cut off.
    fn join(a: Sum, b: Sum) -> Sum {
        Sum {
            sum: a.sum.saturating_add(b.sum),
            negative: a.negative | b.negative,
            positive: a.positive | b.positive,
            notes: a.notes.join(b.notes),
        }
    }

    fn close(tally: Sum) -> Integer {
        tally
            .notes
            .settle(tally.sum, tally.negative, tally.positive)
    }
}

// What plus means for every list, by what occurs in it and its exact sum.
pub fn plus_stands()
    ensures { PlusSums }
{}

// What a part adds; an error adds nothing and is noted.
pub fn amount(part: Integer) -> i64
    ensures { result ≡ amount part }
{
    match part {
        Integer::Proper(number) => i64::from(number),
        Integer::Error(_) => 0,
    }
}
