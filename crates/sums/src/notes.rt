ghost use Rattle.std.specs.Prelude.{◌≡◌};
ghost use Rattle.sums.specs.Notes.{no_notes, notes_of, both_notes, settled, unsettled};

use numbers::{Fault, Integer};

// What occurred among parts beside proper numbers. `undef` speaks of parts to which no rule of arithmetic applies.
#[derive(Clone, Copy, PartialEq, Eq, Debug)]
pub struct Notes {
    pos_over: bool,
    neg_over: bool,
    unknown: bool,
    undef: bool,
}

impl Notes {
    // Of no parts.
    pub fn none() -> Notes
        ensures { result ≡ no_notes }
    {
        Notes {
            pos_over: false,
            neg_over: false,
            unknown: false,
            undef: false,
        }
    }

    // Of one part.
    pub fn of(part: Integer) -> Notes
        ensures { result ≡ notes_of part }
    {
        Notes {
            pos_over: part.is_fault(Fault::PosOver),
            neg_over: part.is_fault(Fault::NegOver),
            unknown: part.is_fault(Fault::Unknown),
            undef: part.is_barred(),
        }
    }

    // Of the parts of both.
    pub fn join(self, other: Notes) -> Notes
        ensures { result ≡ both_notes self other }
    {
        Notes {
            pos_over: self.pos_over | other.pos_over,
            neg_over: self.neg_over | other.neg_over,
            unknown: self.unknown | other.unknown,
            undef: self.undef | other.undef,
        }
    }

    // What the parts come to, by the exact sum of the proper ones, and by whether one of these is negative and one positive.
    pub fn settle(self, sum: i64, negative: bool, positive: bool) -> Integer
        ensures { result ≡ settled self sum negative positive }
    {
        if self.undef {
            Integer::Error(Fault::Undef)
        } else if self.is_unsettled(negative, positive) {
            Integer::Error(Fault::Unknown)
        } else if self.pos_over {
            Integer::Error(Fault::PosOver)
        } else if self.neg_over {
            Integer::Error(Fault::NegOver)
        } else {
            Integer::judge(sum)
        }
    }

    // Whether a part was unknown, or an over met what may bring the sum back into range.
    fn is_unsettled(self, negative: bool, positive: bool) -> bool
        ensures { result ≡ unsettled self negative positive }
    {
        self.unknown
            | (self.pos_over & self.neg_over)
            | (self.pos_over & negative)
            | (self.neg_over & positive)
    }
}
