ghost use Rattle.values.specs.Values.{integer_value, boolean_value};

use crate::scalar::Scalar;
use numbers::{BasicFault, Boolean, Fault, Integer, Number};

// Integers and booleans keep an impl each: one for both would want conversions to and from a Result, and a law that no
// proper value is an error value.
impl Scalar for Integer {
    ghost value = { integer_value };

    fn read(bytes: &[u8], at: usize) -> Option<Integer> {
        if let Some(number) = Number::read(bytes, at) {
            return Some(Integer::Proper(number));
        }
        Some(Integer::Error(Fault::read(bytes, at)?))
    }

    fn write(self, bytes: &mut [u8], at: usize) -> Option<usize> {
        match self {
            Integer::Proper(number) => number.write(bytes, at),
            Integer::Error(fault) => fault.write(bytes, at),
        }
    }
}

impl Scalar for Boolean {
    ghost value = { boolean_value };

    fn read(bytes: &[u8], at: usize) -> Option<Boolean> {
        if let Some(truth) = bool::read(bytes, at) {
            return Some(Boolean::Proper(truth));
        }
        Some(Boolean::Error(BasicFault::read(bytes, at)?))
    }

    fn write(self, bytes: &mut [u8], at: usize) -> Option<usize> {
        match self {
            Boolean::Proper(truth) => truth.write(bytes, at),
            Boolean::Error(basic) => basic.write(bytes, at),
        }
    }
}
