ghost use Rattle.std.specs.Prelude.{◌≡◌};
ghost use Rattle.numbers.specs.Faults.{code_of, basic_of, Decodes, Narrows};

use thiserror::Error;

// The six error values of an integer, with their numbers in bytes.
#[derive(Clone, Copy, Debug, PartialEq, Eq)]
pub enum Fault {
    Undef = 1,
    MissElt = 2,
    PosOver = 3,
    NegOver = 4,
    Unknown = 5,
    ZeroDivide = 6,
}

// The two error values that every type has; a boolean has no others.
#[derive(Clone, Copy, Debug, PartialEq, Eq)]
pub enum BasicFault {
    Undef,
    MissElt,
}

// A number that no error value has.
#[derive(Clone, Copy, Debug, PartialEq, Eq, Error)]
#[error("no error value has the number {0}")]
pub struct UnknownCode(pub u8);

// An error value that only integers have.
#[derive(Clone, Copy, Debug, PartialEq, Eq, Error)]
#[error("only integers have the error value {0}")]
pub struct IntegersOnly(pub Fault);

impl From<Fault> for u8 {
    ghost from_gives = { λ fault code. code ≡ code_of fault };

    fn from(fault: Fault) -> u8 {
        fault as u8
    }
}

impl TryFrom<u8> for Fault {
    type Error = UnknownCode;

    ghost try_from_gives = { Decodes };

    fn try_from(code: u8) -> Result<Fault, UnknownCode> {
        match code {
            1 => Ok(Fault::Undef),
            2 => Ok(Fault::MissElt),
            3 => Ok(Fault::PosOver),
            4 => Ok(Fault::NegOver),
            5 => Ok(Fault::Unknown),
            6 => Ok(Fault::ZeroDivide),
            _ => Err(UnknownCode(code)),
        }
    }
}

impl From<BasicFault> for Fault {
    ghost from_gives = { λ basic fault. fault ≡ basic_of basic };

    fn from(basic: BasicFault) -> Fault {
        match basic {
            BasicFault::Undef => Fault::Undef,
            BasicFault::MissElt => Fault::MissElt,
        }
    }
}

impl TryFrom<Fault> for BasicFault {
    type Error = IntegersOnly;

    ghost try_from_gives = { Narrows };

    fn try_from(fault: Fault) -> Result<BasicFault, IntegersOnly> {
        match fault {
            Fault::Undef => Ok(BasicFault::Undef),
            Fault::MissElt => Ok(BasicFault::MissElt),
            _ => Err(IntegersOnly(fault)),
        }
    }
}
