ghost use Rattle.numbers.specs.declared.fault.Fault.TheVariants.{NegOver, PosOver};
ghost use Rattle.numbers.specs.declared.integer.Integer.TheVariants.{Error};
ghost use Rattle.ordering.specs.Ranking.{maximum, minimum};
ghost use Rattle.choices.specs.Extremes.{greatest_of, least_of, MaxGreatest, MinLeast};
ghost use Rattle.choices.specs.Tallies.{NoMissedTally};
ghost use Rattle.choices.specs.Highest.{max_laws};
ghost use Rattle.choices.specs.Lowest.{min_laws};

use merging::Operation;
use numbers::{Fault, Integer};

// Max of no parts is neg_over, which every other part outranks.
pub struct Max;

impl Operation for Max {
    type Value = Integer;

    ghost neutral = { Error NegOver };

    ghost combine = { maximum };

    ghost laws = { max_laws };

    fn neutral() -> Integer {
        Integer::Error(Fault::NegOver)
    }

    fn combine(a: Integer, b: Integer) -> Integer {
        ordering::max(a, b)
    }
}

// Min of no parts is pos_over, which every other part outranks downward.
pub struct Min;

impl Operation for Min {
    type Value = Integer;

    ghost neutral = { Error PosOver };

    ghost combine = { minimum };

    ghost laws = { min_laws };

    fn neutral() -> Integer {
        Integer::Error(Fault::PosOver)
    }

    fn combine(a: Integer, b: Integer) -> Integer {
        ordering::min(a, b)
    }
}

// What max means for every list; and no tally of parts is miss_elt or zero_divide.
pub fn max_stands()
    ensures means { MaxGreatest }
    ensures tallies { NoMissedTally greatest_of }
{}

// What min means for every list; and no tally of parts is miss_elt or zero_divide.
pub fn min_stands()
    ensures means { MinLeast }
    ensures tallies { NoMissedTally least_of }
{}
