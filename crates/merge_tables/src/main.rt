// Merges the parts that each line of the input names, with every operator and in three orders.
// `stdin` and `stdout` are written by tools/merge_tables.py, which knows the rules and not this code.
#![tactic(auto)]

use merging::{MOST, Operator, Operators, merge, merge_backwards, merge_halves};
use numbers::{BasicFault, Boolean, Integer};
use operators::Standard;
use outside_plus::TwoSums;
use readings::reading;
use std::fmt::Display;

// The value in file order, with a mark where another order gives another text.
fn show<T: Display + Drop>(rt: &HostRuntime, front: T, back: T, halves: T) -> anyhow::Result<()> {
    let heap = rt.alloc();
    let front = front.to_string(heap)?;
    let back = back.to_string(heap)?;
    let halves = halves.to_string(heap)?;
    let agree = back.as_str() == front.as_str() && halves.as_str() == front.as_str();
    let mark = if agree { "" } else { "!" };
    print!(rt; " {front}{mark}")?;
    Ok(())
}

fn merge_and_show<O: Operator>(rt: &HostRuntime, parts: &[O::Part]) -> anyhow::Result<()>
where
    O::Part: Copy,
    O::Closed: Display + Drop,
{
    if let (Ok(front), Ok(back), Ok(halves)) = (
        merge::<O>(parts),
        merge_backwards::<O>(parts),
        merge_halves::<O>(parts),
    ) {
        show(rt, front, back, halves)
    } else {
        print!(rt; " too many")?;
        Ok(())
    }
}

fn integers<S: Operators>(rt: &HostRuntime, line: &str) -> anyhow::Result<()> {
    let mut parts = Vec::new(rt.alloc());
    for word in line.split_whitespace() {
        if let Some(part) = reading(word) {
            parts.push(part)?;
        }
    }
    merge_and_show::<S::Plus>(rt, parts.as_slice())?;
    merge_and_show::<TwoSums>(rt, parts.as_slice())?;
    merge_and_show::<S::Times>(rt, parts.as_slice())?;
    merge_and_show::<S::Max>(rt, parts.as_slice())?;
    merge_and_show::<S::Min>(rt, parts.as_slice())
}

fn truth(word: &str) -> Boolean {
    match word {
        "true" => Boolean::Proper(true),
        "false" => Boolean::Proper(false),
        "miss_elt" => Boolean::Error(BasicFault::MissElt),
        _ => Boolean::Error(BasicFault::Undef),
    }
}

// As `integers`, which leaves out a word that is no reading: one function for both would take the reading and the operators
// as closures.
fn booleans<S: Operators>(rt: &HostRuntime, line: &str) -> anyhow::Result<()> {
    let mut parts = Vec::new(rt.alloc());
    for word in line.split_whitespace() {
        parts.push(truth(word))?;
    }
    merge_and_show::<S::And>(rt, parts.as_slice())?;
    merge_and_show::<S::Or>(rt, parts.as_slice())
}

// One part more than a merge takes, and just as many.
fn limits<S: Operators>(rt: &HostRuntime) -> anyhow::Result<()> {
    let mut parts = Vec::new(rt.alloc());
    for _ in 0..MOST {
        parts.push(Integer::judge(65536))?;
    }
    print!(rt; "{MOST} parts:")?;
    merge_and_show::<S::Plus>(rt, parts.as_slice())?;
    parts.push(Integer::judge(0))?;
    print!(rt; " and one more:")?;
    merge_and_show::<S::Plus>(rt, parts.as_slice())?;
    println!(rt; "")?;
    Ok(())
}

fn one_line(rt: &HostRuntime, line: &str) -> anyhow::Result<()> {
    let Some((kind, rest)) = line.split_once(':') else {
        println!(rt; "no kind: {line}")?;
        return Ok(());
    };
    print!(rt; "{line} ->")?;
    match kind {
        "integers" => integers::<Standard>(rt, rest)?,
        _ => booleans::<Standard>(rt, rest)?,
    }
    println!(rt; "")?;
    Ok(())
}

fn main(rt: HostRuntime) -> anyhow::Result<()> {
    for line in rt.lines(rt.alloc()) {
        one_line(&rt, line?.as_str())?;
    }
    limits::<Standard>(&rt)
}
