use language::{Leaf, Merge, One, Two};
use thiserror::Error;
use values::Members;

// What the kind byte of an expression's record, or of the end of a loop, says.
#[derive(Clone, Copy)]
pub enum Sort {
    List,
    Integer,
    Boolean,
    Error,
    Name,
    Operation,
    If,
    Let,
    Tagcase,
    For,
    Iter,
    Forall,
    Call,
    Record,
    Field,
    Union,
    Array,
    Element,
}

// A byte that is no kind.
#[derive(Clone, Copy, Debug, PartialEq, Eq, Error)]
#[error("no kind has the byte {0}")]
pub struct UnknownKind(pub u8);

impl TryFrom<u8> for Sort {
    ghost use Rattle.verdict.specs.Bodies.{end_sorts};
    ghost use Rattle.verdict.specs.Kinds.{Decodes};

    type Error = UnknownKind;

    ghost try_from_gives = { Decodes end_sorts };

    fn try_from(byte: u8) -> Result<Sort, UnknownKind> {
        match byte {
            0x30 => Ok(Sort::List),
            0x31 => Ok(Sort::Integer),
            0x32 => Ok(Sort::Boolean),
            0x33 => Ok(Sort::Error),
            0x34 => Ok(Sort::Name),
            0x35 => Ok(Sort::Operation),
            0x36 => Ok(Sort::If),
            0x37 => Ok(Sort::Let),
            0x38 => Ok(Sort::Tagcase),
            0x39 => Ok(Sort::For),
            0x3A => Ok(Sort::Iter),
            0x3B => Ok(Sort::Forall),
            0x3C => Ok(Sort::Call),
            0x3D => Ok(Sort::Record),
            0x3E => Ok(Sort::Field),
            0x3F => Ok(Sort::Union),
            0x40 => Ok(Sort::Array),
            0x42 => Ok(Sort::Element),
            _ => Err(UnknownKind(byte)),
        }
    }
}

// What such a record says before its parts begin.
#[derive(Clone, Copy)]
pub enum Head {
    // The leaf, and the number of its type.
    Leaf(Leaf, u8),
    One(One),
    Two(Two),
    // The number of members.
    List(u8),
    If,
    Let,
    // The number of arms.
    Tagcase(u8),
    // The types of the results.
    For(Members),
    // The merge, and the type of the parts that it takes.
    Forall(Merge, u8),
    Iter,
}

// What the kind byte of a row says.
#[derive(Clone, Copy)]
pub enum Shape {
    Array,
    Record,
    Union,
}

impl TryFrom<u8> for Shape {
    ghost use Rattle.verdict.specs.Modules.{shapes};
    ghost use Rattle.verdict.specs.Kinds.{Decodes};

    type Error = UnknownKind;

    ghost try_from_gives = { Decodes shapes };

    fn try_from(byte: u8) -> Result<Shape, UnknownKind> {
        match byte {
            0x12 => Ok(Shape::Array),
            0x13 => Ok(Shape::Record),
            0x14 => Ok(Shape::Union),
            _ => Err(UnknownKind(byte)),
        }
    }
}
