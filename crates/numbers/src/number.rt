ghost use Rattle.std.specs.Prelude.{◌≡◌, pos, negsuc, ◌≤ℤ◌, MatchOption};

// A proper number: -2147483647 to 2147483647. The 32-bit number below these is none.
#[derive(Clone, Copy, Debug, PartialEq, Eq)]
pub struct Number {
    value: i32,
    ghost proper: { (negsuc 2147483646 ≤ℤ value) × (value ≤ℤ pos 2147483647) },
}

impl Number {
    // The number with this value; none at -2147483648. `new` and `get` are named as those of std's NonZero numbers: a TryFrom
    // would need an error type that says no more than none.
    pub fn new(value: i32) -> Option<Number>
        ensures { MatchOption result (value ≡ negsuc 2147483647) (λ n. n.value ≡ value) }
    {
        if value == i32::MIN {
            return None;
        }
        Some(Number { value })
    }

    pub fn get(self) -> i32
        ensures { result ≡ self.value }
    {
        self.value
    }
}

// At 64 bits sums, products and negations of two numbers are exact.
impl From<Number> for i64 {
    ghost from_gives = { λ number wide. wide ≡ number.value };

    fn from(number: Number) -> i64 {
        i64::from(number.value)
    }
}
