// What a column of readings comes to: merged in three orders, and, for comparison, by repeated +.
#![tactic(auto)]

ghost use Rattle.std.specs.Prelude.{◌≡◌, ◌↔◌, IsTrue};
ghost use Rattle.summaries.specs.Orders.{Agrees, MergedThreeWays, from_first, from_last};

use arithmetic::plus;
use merging::{Operator, TooManyParts, merge, merge_backwards, merge_halves};
use numbers::Integer;

// One merge from the front, from the back and by halves.
#[derive(Clone, Copy, PartialEq, Eq, Debug)]
pub struct ThreeOrders {
    pub front: Integer,
    pub back: Integer,
    pub halves: Integer,
}

impl ThreeOrders {
    // Whether the three came to the same.
    pub fn agree(&self) -> bool
        ensures { IsTrue result ↔ Agrees self.now }
    {
        same(self.front, self.back) && same(self.front, self.halves)
    }
}

// Merges readings in three orders. That they agree is no luck: each is the operator's meaning.
pub fn merge_in_three_orders<O: Operator<Part = Integer, Closed = Integer>>(
    readings: &[Integer],
) -> Result<ThreeOrders, TooManyParts>
    ensures { MergedThreeWays O.is readings.now result }
{
    Ok(ThreeOrders {
        front: merge::<O>(readings)?,
        back: merge_backwards::<O>(readings)?,
        halves: merge_halves::<O>(readings)?,
    })
}

// 0 + the first reading + the second, and so on: no merge, since its order counts.
pub fn repeated_plus(readings: &[Integer]) -> Integer
    ensures { result ≡ from_first readings.now }
{
    readings
        .iter()
        .fold(Integer::judge(0), |total, reading| plus(total, *reading))
}

// The same from the last reading to the first: the one is a fold, the other an rfold, and nothing else.
pub fn repeated_plus_backwards(readings: &[Integer]) -> Integer
    ensures { result ≡ from_last readings.now }
{
    readings
        .iter()
        .rfold(Integer::judge(0), |later, reading| plus(later, *reading))
}

// Whether two integers are one and the same; unlike VAL's =, this always answers. It is ==, with a clause that says so.
#[tactic(auto, using(crate::proofs::Equality::same_if, crate::proofs::Equality::same_only))]
pub fn same(j: Integer, k: Integer) -> bool
    ensures { IsTrue result ↔ (j ≡ k) }
{
    j == k
}
