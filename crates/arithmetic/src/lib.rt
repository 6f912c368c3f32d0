// Arithmetic on integers that carry error values. Rules are named as in specs/Arithmetic.antt.
#![tactic(auto)]

ghost use Rattle.std.specs.Prelude.{◌≡◌, true, ◌||◌, pos, ◌+ℤ◌, ◌-ℤ◌, ◌*ℤ◌, ◌≢◌, int_div, unsigned_abs};
ghost use Rattle.numbers.specs.Integers.{is_error, judged};
ghost use Rattle.arithmetic.specs.Arithmetic.{pos_over_plus, neg_over_plus, sum, negation, difference, times_pos_over, times_neg_over, times_unknown, product, quotient, modulus, magnitude};

use numbers::{Fault, Integer, Number};
use std::cmp::Ordering;

const UNDEF: Integer = Integer::Error(Fault::Undef);

const UNKNOWN: Integer = Integer::Error(Fault::Unknown);

const POS_OVER: Integer = Integer::Error(Fault::PosOver);

const NEG_OVER: Integer = Integer::Error(Fault::NegOver);

const ZERO_DIVIDE: Integer = Integer::Error(Fault::ZeroDivide);

// J + K
pub fn plus(j: Integer, k: Integer) -> Integer
    ensures { result ≡ sum j k }
{
    match (j, k) {
        (Integer::Proper(m), Integer::Proper(n)) => exact_sum(m, n),
        _ => sum_with_error(j, k),
    }
}

// −J
pub fn negate(j: Integer) -> Integer
    ensures { result ≡ negation j }
{
    match j {
        Integer::Proper(n) => Integer::judge(-i64::from(n)),
        POS_OVER => NEG_OVER,
        NEG_OVER => POS_OVER,
        UNKNOWN => UNKNOWN,
        Integer::Error(Fault::Undef | Fault::MissElt | Fault::ZeroDivide) => UNDEF,
    }
}

// J − K
pub fn minus(j: Integer, k: Integer) -> Integer
    ensures { result ≡ difference j k }
{
    plus(j, negate(k))
}

// J × K. It is put into the loops that merge, which the compiler by itself does in some of them only.
#[inline(always)]
pub fn times(j: Integer, k: Integer) -> Integer
    ensures { result ≡ product j k }
{
    match (j, k) {
        (Integer::Proper(m), Integer::Proper(n)) => exact_product(m, n),
        _ => product_with_error(j, k),
    }
}

// J / K, the fraction dropped toward zero. `divide` and `modulo` keep a match each, as `plus` and `times` do: with the exact
// operation as a closure, the contract of one function for both would be longer than the two.
pub fn divide(j: Integer, k: Integer) -> Integer
    ensures { result ≡ quotient j k }
{
    match (j, k) {
        (Integer::Proper(_), Integer::Proper(n)) if n.get() == 0 => ZERO_DIVIDE,
        (Integer::Proper(m), Integer::Proper(n)) => Integer::judge(i64::from(m) / i64::from(n)),
        _ => UNDEF,
    }
}

// mod(J, K)
pub fn modulo(j: Integer, k: Integer) -> Integer
    ensures { result ≡ modulus j k }
{
    match (j, k) {
        (Integer::Proper(_), Integer::Proper(n)) if n.get() == 0 => ZERO_DIVIDE,
        (Integer::Proper(m), Integer::Proper(n)) => exact_remainder(m, n),
        _ => UNDEF,
    }
}

// abs(J)
pub fn abs(j: Integer) -> Integer
    ensures { result ≡ magnitude j }
{
    match j {
        Integer::Proper(n) => exact_magnitude(n),
        POS_OVER | NEG_OVER => POS_OVER,
        UNKNOWN => UNKNOWN,
        Integer::Error(Fault::Undef | Fault::MissElt | Fault::ZeroDivide) => UNDEF,
    }
}

// Each of the exact operations is one operator at 64 bits, with a proof of its own that it fits.
fn exact_sum(m: Number, n: Number) -> Integer
    ensures { result ≡ judged (m.value +ℤ n.value) }
{
    Integer::judge(i64::from(m) + i64::from(n))
}

fn exact_product(m: Number, n: Number) -> Integer
    ensures { result ≡ judged (m.value *ℤ n.value) }
{
    Integer::judge(i64::from(m) * i64::from(n))
}

// What a division by a number other than 0 leaves.
fn exact_remainder(m: Number, n: Number) -> Integer
    requires { n.value ≢ pos 0 }
    ensures { result ≡ judged (m.value -ℤ n.value *ℤ int_div m.value n.value) }
{
    Integer::judge(i64::from(m) % i64::from(n))
}

fn exact_magnitude(n: Number) -> Integer
    ensures { result ≡ judged (pos (unsigned_abs n.value)) }
{
    Integer::judge(i64::from(n).abs())
}

fn sum_with_error(j: Integer, k: Integer) -> Integer
    requires { (is_error j || is_error k) ≡ true }
    ensures { result ≡ sum j k }
{
    match (j, k) {
        _ if j.is_barred() || k.is_barred() => UNDEF,
        (POS_OVER, other) | (other, POS_OVER) => sum_with_pos_over(other),
        (NEG_OVER, other) | (other, NEG_OVER) => sum_with_neg_over(other),
        _ => UNKNOWN,
    }
}

// Rule 1a: pos_over + J. It stays apart from 1b, since each function reads as its rule; one for both would take the over
// and a test of the sign.
fn sum_with_pos_over(j: Integer) -> Integer
    ensures { result ≡ pos_over_plus j }
{
    match j {
        Integer::Proper(n) if n.get() >= 0 => POS_OVER,
        POS_OVER => POS_OVER,
        _ => UNKNOWN,
    }
}

// Rule 1b: neg_over + J.
fn sum_with_neg_over(j: Integer) -> Integer
    ensures { result ≡ neg_over_plus j }
{
    match j {
        Integer::Proper(n) if n.get() <= 0 => NEG_OVER,
        NEG_OVER => NEG_OVER,
        _ => UNKNOWN,
    }
}

fn product_with_error(j: Integer, k: Integer) -> Integer
    requires { (is_error j || is_error k) ≡ true }
    ensures { result ≡ product j k }
{
    match (j, k) {
        _ if j.is_barred() || k.is_barred() => UNDEF,
        (other, POS_OVER) | (POS_OVER, other) => product_with_pos_over(other),
        (other, NEG_OVER) | (NEG_OVER, other) => product_with_neg_over(other),
        (other, UNKNOWN) | (UNKNOWN, other) => product_with_unknown(other),
        _ => UNKNOWN,
    }
}

// Rule 4a: J × pos_over.
fn product_with_pos_over(j: Integer) -> Integer
    ensures { result ≡ times_pos_over j }
{
    match j {
        Integer::Proper(n) => match n.get().cmp(&0) {
            Ordering::Less => NEG_OVER,
            Ordering::Equal => Integer::judge(0),
            Ordering::Greater => POS_OVER,
        },
        NEG_OVER => NEG_OVER,
        POS_OVER => POS_OVER,
        _ => UNKNOWN,
    }
}

// Rule 4b: J × neg_over.
fn product_with_neg_over(j: Integer) -> Integer
    ensures { result ≡ times_neg_over j }
{
    negate(product_with_pos_over(j))
}

// Rule 4c: J × unknown.
fn product_with_unknown(j: Integer) -> Integer
    ensures { result ≡ times_unknown j }
{
    match j {
        Integer::Proper(n) if n.get() == 0 => Integer::judge(0),
        _ => UNKNOWN,
    }
}
