// Times: the product of many integers, whatever their order.
#![tactic(auto)]

ghost use Rattle.std.specs.Prelude.{pos};
ghost use Rattle.numbers.specs.Integers.{judged};
ghost use Rattle.arithmetic.specs.Arithmetic.{product};
ghost use Rattle.products.specs.Products.{TimesMultiplies, NoMissedTally};
ghost use Rattle.products.specs.TimesLaws.{times_laws};

use merging::Operation;
use numbers::Integer;

// Times of no parts is 1.
pub struct Times;

impl Operation for Times {
    type Value = Integer;

    ghost neutral = { judged (pos 1) };

    ghost combine = { product };

    ghost laws = { times_laws };

    fn neutral() -> Integer {
        Integer::judge(1)
    }

    // Put in place of each call, as `times` is.
    #[inline(always)]
    fn combine(a: Integer, b: Integer) -> Integer {
        arithmetic::times(a, b)
    }
}

// What times means for every list, by what occurs in it and its exact product; and no tally of parts is
// miss_elt or zero_divide.
pub fn times_stands()
    ensures means { TimesMultiplies }
    ensures tallies { NoMissedTally }
{}
