ghost use Rattle.std.specs.Prelude.{◌≡◌, Some, None};
ghost use Rattle.values.specs.declared.refusal.Refusal.TheVariants.{Memory};
ghost use Rattle.values.specs.Refusals.{number_of, offset_of, word_of, text_of};

use std::alloc::{AllocError, AllocFailed};
use std::fmt;

// Why a call did nothing: one of fourteen refusals, or want of memory, which has no number.
// The first six carry the offset of the byte that is at fault.
#[derive(Clone, Copy, PartialEq, Debug)]
pub enum Refusal {
    Cut(usize),
    Strange(usize),
    Deep(usize),
    Twin(usize),
    Undeclared(usize),
    Clash(usize),
    Pending,
    Absent,
    Allowance,
    Spent,
    Full,
    Spoilt,
    Foreign,
    Oversize,
    Memory,
}

impl Refusal {
    // The refusal's number; want of memory has none, so that the variants cannot have theirs as discriminants.
    pub fn number(self) -> Option<u8>
        ensures { result ≡ number_of self }
    {
        match self {
            Refusal::Cut(_) => Some(1),
            Refusal::Strange(_) => Some(2),
            Refusal::Deep(_) => Some(3),
            Refusal::Twin(_) => Some(4),
            Refusal::Undeclared(_) => Some(5),
            Refusal::Clash(_) => Some(6),
            Refusal::Pending => Some(7),
            Refusal::Absent => Some(8),
            Refusal::Allowance => Some(9),
            Refusal::Spent => Some(10),
            Refusal::Full => Some(11),
            Refusal::Spoilt => Some(12),
            Refusal::Foreign => Some(13),
            Refusal::Oversize => Some(14),
            Refusal::Memory => None,
        }
    }

    // The offset of what is at fault, where the refusal is of bytes.
    pub fn offset(self) -> Option<usize>
        ensures { result ≡ offset_of self }
    {
        match self {
            Refusal::Cut(at)
            | Refusal::Strange(at)
            | Refusal::Deep(at)
            | Refusal::Twin(at)
            | Refusal::Undeclared(at)
            | Refusal::Clash(at) => Some(at),
            _ => None,
        }
    }

    // The refusal's word.
    pub fn word(self) -> &'static str
        ensures { result.now ≡ word_of self }
    {
        match self {
            Refusal::Cut(_) => "cut",
            Refusal::Strange(_) => "strange",
            Refusal::Deep(_) => "deep",
            Refusal::Twin(_) => "twin",
            Refusal::Undeclared(_) => "undeclared",
            Refusal::Clash(_) => "clash",
            Refusal::Pending => "pending",
            Refusal::Absent => "absent",
            Refusal::Allowance => "allowance",
            Refusal::Spent => "spent",
            Refusal::Full => "full",
            Refusal::Spoilt => "spoilt",
            Refusal::Foreign => "foreign",
            Refusal::Oversize => "oversize",
            Refusal::Memory => "out of memory",
        }
    }
}

// Display and the conversions are by hand, since what a derive writes has no contract.
impl fmt::Display for Refusal {
    ghost output = { λ x. Some (text_of x) };

    fn fmt<W: fmt::Write>(&self, f: &mut fmt::Formatter<W>) -> fmt::Result {
        let word = self.word();
        let Some(number) = self.number() else {
            return write!(f, "{word}");
        };
        match self.offset() {
            Some(offset) => write!(f, "{word} ({number}) at offset {offset}"),
            None => write!(f, "{word} ({number})"),
        }
    }
}

impl From<AllocError> for Refusal {
    ghost from_gives = { λ _ r. r ≡ Memory };

    fn from(_e: AllocError) -> Refusal {
        Refusal::Memory
    }
}

impl<T: Drop> From<AllocFailed<T>> for Refusal {
    ghost from_gives = { λ _ r. r ≡ Memory };

    fn from(_r: AllocFailed<T>) -> Refusal {
        Refusal::Memory
    }
}
