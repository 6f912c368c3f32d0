ghost use Rattle.std.specs.Prelude.{◌≡◌, ◌↔◌, IsTrue};
ghost use Rattle.value_reader.specs.Kinds.{code_of, head_size, ErrorOf, Decodes};

use numbers::{BasicFault, Fault};
use thiserror::Error;

// What a record is, with the byte that it begins with.
#[derive(Clone, Copy, Debug, PartialEq, Eq)]
pub enum Kind {
    Boolean = 0x50,
    Integer = 0x51,
    Error = 0x52,
    Array = 0x53,
    Record = 0x54,
    Union = 0x55,
}

// A byte with which no record begins. Each conversion has an error of its own, which says what did not convert.
#[derive(Clone, Copy, Debug, PartialEq, Eq, Error)]
#[error("no record begins with the byte {0}")]
pub struct UnknownKind(pub u8);

impl Kind {
    // Whether a value of a type of this kind may be this error: the errors of arithmetic are integers' alone. (The check of
    // modules asks the same of a type's number, where there is no kind yet.)
    pub fn admits(self, fault: Fault) -> bool
        ensures { IsTrue result ↔ ErrorOf self fault }
    {
        self == Kind::Integer || BasicFault::try_from(fault).is_ok()
    }

    // How many bytes a record of this kind takes before the values that stand in it.
    pub fn head_size(self) -> usize
        ensures { result ≡ head_size self }
    {
        match self {
            Kind::Integer => 5,
            Kind::Array => 7,
            Kind::Boolean | Kind::Error | Kind::Record | Kind::Union => 2,
        }
    }
}

impl From<Kind> for u8 {
    ghost from_gives = { λ kind code. code ≡ code_of kind };

    fn from(kind: Kind) -> u8 {
        kind as u8
    }
}

impl TryFrom<u8> for Kind {
    type Error = UnknownKind;

    ghost try_from_gives = { Decodes };

    fn try_from(code: u8) -> Result<Kind, UnknownKind> {
        match code {
            0x50 => Ok(Kind::Boolean),
            0x51 => Ok(Kind::Integer),
            0x52 => Ok(Kind::Error),
            0x53 => Ok(Kind::Array),
            0x54 => Ok(Kind::Record),
            0x55 => Ok(Kind::Union),
            _ => Err(UnknownKind(code)),
        }
    }
}
