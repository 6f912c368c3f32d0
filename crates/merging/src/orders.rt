ghost use Rattle.std.specs.Prelude.{◌≡◌, ◌<◌, ◌≤◌, ◌++◌, length, Some, codes, OnOk, OnErr};
ghost use Rattle.std.specs.Fmt.{decimal};
ghost use Rattle.merging.specs.Operators.{most, tallied};
ghost use Rattle.merging.specs.Merged.{Grouped, merged};
ghost use Rattle.merging.specs.Trees.{EveryGrouping};

use crate::operator::Operator;
use std::error::Error;
use std::fmt;

// The most parts that a merge takes.
pub const MOST: usize = 32768;

// The refusal of more parts than that.
#[derive(Clone, Copy, PartialEq, Eq, Debug)]
pub struct TooManyParts;

// By hand, since a derive's text has no contract.
impl fmt::Display for TooManyParts {
    ghost output = { λ _. Some (codes "more than " ++ decimal most ++ codes " parts") };

    fn fmt<W: fmt::Write>(&self, f: &mut fmt::Formatter<W>) -> fmt::Result {
        write!(f, "more than {MOST} parts")
    }
}

impl Error for TooManyParts {}

// Merges parts in order from the front.
pub fn merge<O: Operator>(parts: &[O::Part]) -> Result<O::Closed, TooManyParts>
where
    O::Part: Copy,
    ensures means { result ≡ merged O.is parts.now }
    ensures grouped { Grouped O.is parts.now result }
{
    refuse_many(parts)?;
    let mut sum = O::start();
    for part in parts {
        sum = O::join(sum, O::tally(*part));
    }
    Ok(O::close(sum))
}

// Merges parts from the back. It stays apart from `merge`, since it exchanges the sides of each join too.
pub fn merge_backwards<O: Operator>(parts: &[O::Part]) -> Result<O::Closed, TooManyParts>
where
    O::Part: Copy,
    ensures means { result ≡ merged O.is parts.now }
{
    refuse_many(parts)?;
    let mut sum = O::start();
    for part in parts.iter().rev() {
        sum = O::join(O::tally(*part), sum);
    }
    Ok(O::close(sum))
}

// Merges parts as a balanced tree.
pub fn merge_halves<O: Operator>(parts: &[O::Part]) -> Result<O::Closed, TooManyParts>
where
    O::Part: Copy,
    ensures means { result ≡ merged O.is parts.now }
{
    refuse_many(parts)?;
    Ok(O::close(tally_halves::<O>(parts)))
}

// Refuses more parts than a merge takes.
fn refuse_many<P>(parts: &[P]) -> Result<(), TooManyParts>
    ensures few { OnOk result (length parts.now ≤ most) }
    ensures many { OnErr result (most < length parts.now) }
{
    if parts.len() > MOST {
        Err(TooManyParts)
    } else {
        Ok(())
    }
}

// The tally of parts, as the join of the tallies of their halves.
fn tally_halves<O: Operator>(parts: &[O::Part]) -> O::Tally
where
    O::Part: Copy,
    requires { length parts.now ≤ most }
    ensures { result ≡ tallied O.is parts.now }
{
    match parts {
        [] => O::start(),
        [part] => O::tally(*part),
        _ => {
            let (front, back) = parts.split_at(parts.len() / 2);
            O::join(tally_halves::<O>(front), tally_halves::<O>(back))
        }
    }
}

// Every order and grouping of at most 32,768 parts has the meaning of the list, for every operator.
pub fn grouping_stands<O: Operator>()
    ensures { EveryGrouping O.is }
{}
