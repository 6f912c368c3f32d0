// The six standard operators, and figures of what they and the arithmetic give.
#![tactic(auto)]

ghost use Rattle.operators.specs.Standard.{standard};
ghost use Rattle.operators.specs.Figures.{Figures, NotRepeatedSum};
ghost use Rattle.std.specs.Prelude.{refl};

use merging::Operators;

// The operators that programs merge with.
pub struct Standard;

impl Operators for Standard {
    type Plus = sums::Plus;

    type Times = products::Times;

    type Max = choices::Max;

    type Min = choices::Min;

    type And = choices::And;

    type Or = choices::Or;

    ghost merges = { standard };

    ghost plus_is = { refl };

    ghost times_is = { refl };

    ghost max_is = { refl };

    ghost min_is = { refl };

    ghost and_is = { refl };

    ghost or_is = { refl };
}

// Ten figures, over the definitions that the contracts use.
pub fn figures_stand()
    ensures { Figures }
{}

// Plus adds exactly and judges once, which repeated addition does not.
pub fn plus_is_not_repeated_sum()
    ensures { NotRepeatedSum }
{}
