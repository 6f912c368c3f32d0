ghost use Rattle.std.specs.Prelude.{true, false};
ghost use Rattle.numbers.specs.declared.boolean.Boolean.TheVariants.{Proper};
ghost use Rattle.numbers.specs.Booleans.{both, either};
ghost use Rattle.choices.specs.Truths.{all_of, some_of, AndAll, OrSome, NoMissedTally};
ghost use Rattle.choices.specs.Gathering.{and_laws, or_laws};

use merging::Operation;
use numbers::Boolean;

// And of no parts is true.
pub struct And;

impl Operation for And {
    type Value = Boolean;

    ghost neutral = { Proper true };

    ghost combine = { both };

    ghost laws = { and_laws };

    fn neutral() -> Boolean {
        Boolean::Proper(true)
    }

    fn combine(a: Boolean, b: Boolean) -> Boolean {
        a.and(b)
    }
}

// Or of no parts is false.
pub struct Or;

impl Operation for Or {
    type Value = Boolean;

    ghost neutral = { Proper false };

    ghost combine = { either };

    ghost laws = { or_laws };

    fn neutral() -> Boolean {
        Boolean::Proper(false)
    }

    fn combine(a: Boolean, b: Boolean) -> Boolean {
        a.or(b)
    }
}

// What and means for every list; and no tally of parts is miss_elt.
pub fn and_stands()
    ensures means { AndAll }
    ensures tallies { NoMissedTally all_of }
{}

// What or means for every list; and no tally of parts is miss_elt.
pub fn or_stands()
    ensures means { OrSome }
    ensures tallies { NoMissedTally some_of }
{}
