ghost use Rattle.std.specs.Prelude.{◌≡◌};
ghost use Rattle.ordering.specs.Ranking.{maximum, minimum, MaxRules, MinRules};

use numbers::{Fault, Integer};

// Named here for the arms below, as in each file whose rules match on them: a name from outside is as long as the error.
const UNDEF: Integer = Integer::Error(Fault::Undef);

const UNKNOWN: Integer = Integer::Error(Fault::Unknown);

const POS_OVER: Integer = Integer::Error(Fault::PosOver);

const NEG_OVER: Integer = Integer::Error(Fault::NegOver);

// max(J, K). It stays apart from min, since each arm is a rule of the one or of the other.
pub fn max(j: Integer, k: Integer) -> Integer
    ensures { result ≡ maximum j k }
{
    match (j, k) {
        _ if j.is_barred() || k.is_barred() => UNDEF,
        (POS_OVER, _) | (_, POS_OVER) => POS_OVER,
        (NEG_OVER, other) | (other, NEG_OVER) => other,
        (Integer::Proper(m), Integer::Proper(n)) => if m.get() < n.get() { k } else { j },
        _ => UNKNOWN,
    }
}

// min(J, K)
pub fn min(j: Integer, k: Integer) -> Integer
    ensures { result ≡ minimum j k }
{
    match (j, k) {
        _ if j.is_barred() || k.is_barred() => UNDEF,
        (NEG_OVER, _) | (_, NEG_OVER) => NEG_OVER,
        (POS_OVER, other) | (other, POS_OVER) => other,
        (Integer::Proper(m), Integer::Proper(n)) => if n.get() < m.get() { k } else { j },
        _ => UNKNOWN,
    }
}

// Choosing by rank is choosing by the rules.
pub fn ranking_stands()
    ensures { MaxRules × MinRules }
{}
