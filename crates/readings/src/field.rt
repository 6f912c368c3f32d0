ghost use Rattle.std.specs.Prelude.{◌≡◌};
ghost use Rattle.readings.specs.Fields.{word_fault, ReadsNumber, Reads};

use numbers::{Fault, Integer};

// The reading that a field says, or none where it says none. Blanks around it are the caller's to take away.
pub fn reading(text: &str) -> Option<Integer>
    ensures { Reads text.now result }
{
    named_fault(text)
        .map(Integer::Error)
        .or_else(|| number(text))
}

// No FromStr of the error values: blanks and miss are words of readings alone.
fn named_fault(text: &str) -> Option<Fault>
    ensures { result ≡ word_fault text.now }
{
    match text {
        "" | "miss" | "miss_elt" => Some(Fault::MissElt),
        "undef" => Some(Fault::Undef),
        "pos_over" => Some(Fault::PosOver),
        "neg_over" => Some(Fault::NegOver),
        "unknown" => Some(Fault::Unknown),
        "zero_divide" => Some(Fault::ZeroDivide),
        _ => None,
    }
}

fn number(text: &str) -> Option<Integer>
    ensures { ReadsNumber text.now result }
{
    text.parse::<i64>().ok().map(Integer::judge)
}
