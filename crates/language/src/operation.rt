// The operations on one operand. The first two are of integers, the next of booleans; the tests for errors take any
// type that has the error; the last three are of arrays.
use numbers::Fault;

#[derive(Clone, Copy)]
pub enum Unary {
    Negate,
    Abs,
    Not,
    IsFault(Fault),
    IsError,
    Lowest,
    Highest,
    Size,
}

// The operations on two operands: seven with an integer for a result, six comparisons of integers, two of booleans.
#[derive(Clone, Copy)]
pub enum Binary {
    Plus,
    Minus,
    Times,
    Divide,
    Modulo,
    Max,
    Min,
    Equal,
    Unequal,
    Less,
    AtMost,
    Greater,
    AtLeast,
    And,
    Or,
}
