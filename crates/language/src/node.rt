use crate::merge::Merge;
use crate::operation::{Binary, Unary};
use numbers::{Fault, Number};

// An expression without parts.
#[derive(Clone, Copy)]
pub enum Leaf {
    Integer(Number),
    Boolean(bool),
    // The error value, and the number of its type.
    Error(Fault, u8),
    Name(u8),
}

// An expression with one part, whose values it takes all at once.
#[derive(Clone, Copy)]
pub enum One {
    Unary(Unary),
    // The function.
    Call(u8),
    // The type.
    Record(u8),
    // The field.
    Field(u8),
    // The type, and the tag.
    Union(u8, u8),
}

// An expression with two parts.
#[derive(Clone, Copy)]
pub enum Two {
    Binary(Binary),
    // The type.
    Array(u8),
    Element,
}

// An expression with more parts, or with parts that see more names or are not always evaluated.
#[derive(Clone, Copy)]
pub enum Block {
    // The number of members.
    List(u8),
    // The number of results.
    If(u8),
    Let,
    // The number of arms, and that of the results.
    Tagcase(u8, u8),
    // The number of results.
    For(u8),
    Forall(Merge),
}

// An end of a loop that is no expression. The number of results is that of the loop.
#[derive(Clone, Copy)]
pub enum End {
    Iter,
    // The number of results.
    If(u8),
    Let,
    // The number of arms, and that of the results.
    Tagcase(u8, u8),
}

#[derive(Clone, Copy)]
pub enum Kind {
    Leaf(Leaf),
    One(One),
    Two(Two),
    Block(Block),
    End(End),
}

// A record of a function's body. The records of its parts follow, and `span` counts it and all of these: the record
// behind them stands so many places further on.
#[derive(Clone, Copy)]
pub struct Node {
    pub kind: Kind,
    pub span: usize,
}
