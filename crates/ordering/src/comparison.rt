ghost use Rattle.std.specs.Prelude.{◌≡◌};
ghost use Rattle.ordering.specs.Comparing.{less_unless, compared, answered, less, at_most, greater, at_least, equal, unequal};

use numbers::{BasicFault, Boolean, Fault, Integer};
use std::cmp::Ordering;

const POS_OVER: Integer = Integer::Error(Fault::PosOver);

const NEG_OVER: Integer = Integer::Error(Fault::NegOver);

const UNDEF: Boolean = Boolean::Error(BasicFault::Undef);

// The order of two integers, which <, <=, > and >= read; none where an error value leaves it open.
pub fn compare(j: Integer, k: Integer) -> Option<Ordering>
    ensures { result ≡ compared j k }
{
    match (j, k) {
        _ if j.is_barred() || k.is_barred() => None,
        (_, POS_OVER) => less_unless(Fault::PosOver, j),
        (POS_OVER, _) => less_unless(Fault::PosOver, k).map(Ordering::reverse),
        (NEG_OVER, _) => less_unless(Fault::NegOver, k),
        (_, NEG_OVER) => less_unless(Fault::NegOver, j).map(Ordering::reverse),
        (Integer::Proper(m), Integer::Proper(n)) => Some(m.get().cmp(&n.get())),
        _ => None,
    }
}

// J < K
pub fn less(j: Integer, k: Integer) -> Boolean
    ensures { result ≡ less j k }
{
    answer(compare(j, k).map(Ordering::is_lt))
}

// J <= K
pub fn at_most(j: Integer, k: Integer) -> Boolean
    ensures { result ≡ at_most j k }
{
    answer(compare(j, k).map(Ordering::is_le))
}

// J > K
pub fn greater(j: Integer, k: Integer) -> Boolean
    ensures { result ≡ greater j k }
{
    answer(compare(j, k).map(Ordering::is_gt))
}

// J >= K
pub fn at_least(j: Integer, k: Integer) -> Boolean
    ensures { result ≡ at_least j k }
{
    answer(compare(j, k).map(Ordering::is_ge))
}

// J = K
pub fn equal(j: Integer, k: Integer) -> Boolean
    ensures { result ≡ equal j k }
{
    match (j, k) {
        (Integer::Proper(m), Integer::Proper(n)) => Boolean::Proper(m == n),
        _ => UNDEF,
    }
}

// J ~= K
pub fn unequal(j: Integer, k: Integer) -> Boolean
    ensures { result ≡ unequal j k }
{
    equal(j, k).not()
}

// What a test of the order says: undef where the order is open.
fn answer(test: Option<bool>) -> Boolean
    ensures { result ≡ answered test }
{
    test.map_or(UNDEF, Boolean::Proper)
}

// The order of an over and J, of which both rules of overs speak: 5a sets J against pos_over, 5b neg_over against J.
fn less_unless(over: Fault, j: Integer) -> Option<Ordering>
    ensures { result ≡ less_unless over j }
{
    if j.is_fault(over) || j.is_fault(Fault::Unknown) {
        None
    } else {
        Some(Ordering::Less)
    }
}
