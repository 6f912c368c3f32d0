// Prints every operation at both ends of the range, around zero and at every error value.
// `stdout` is written by tools/operation_tables.py, which knows the rules and not this code.
#![tactic(auto)]

use arithmetic::{abs, divide, minus, modulo, negate, plus, times};
use numbers::{BasicFault, Boolean, Fault, Integer};
use ordering::{at_least, at_most, equal, greater, less, max, min, unequal};
use std::fmt::Display;
use std::io;

// The proper operands, then the six error values.
const OPERANDS: [Result<i64, Fault>; 20] = [
    Ok(-2147483647),
    Ok(-2147483646),
    Ok(-46341),
    Ok(-7),
    Ok(-2),
    Ok(-1),
    Ok(0),
    Ok(1),
    Ok(2),
    Ok(7),
    Ok(46340),
    Ok(65536),
    Ok(2147483646),
    Ok(2147483647),
    Err(Fault::Undef),
    Err(Fault::MissElt),
    Err(Fault::PosOver),
    Err(Fault::NegOver),
    Err(Fault::Unknown),
    Err(Fault::ZeroDivide),
];

const TRUTHS: [Boolean; 4] = [
    Boolean::Proper(true),
    Boolean::Proper(false),
    Boolean::Error(BasicFault::Undef),
    Boolean::Error(BasicFault::MissElt),
];

fn integer(operand: Result<i64, Fault>) -> Integer {
    match operand {
        Ok(number) => Integer::judge(number),
        Err(fault) => Integer::Error(fault),
    }
}

// An operation at every pair of operands.
fn table<T: Display + Drop, F: Fn(Integer, Integer) -> T>(
    rt: &HostRuntime,
    operands: &[Integer],
    name: &str,
    operation: F,
) -> io::Result<()>
    requires { F.IsAlwaysCallable operation }
{
    for j in operands {
        print!(rt; "{name} {j}:")?;
        for k in operands {
            print!(rt; " {}", operation(*j, *k))?;
        }
        println!(rt; "")?;
    }
    Ok(())
}

// Negation, magnitude and the seven tests of one integer.
fn singles(rt: &HostRuntime, operands: &[Integer]) -> io::Result<()> {
    for &j in operands {
        let negated = negate(j);
        let magnitude = abs(j);
        let error = j.is_error();
        print!(rt; "one {j}: {negated} {magnitude} {error}")?;
        for fault in OPERANDS.into_iter().filter_map(Result::err) {
            let is = j.is_fault(fault);
            print!(rt; " {is}")?;
        }
        println!(rt; "")?;
    }
    Ok(())
}

fn truths(rt: &HostRuntime) -> io::Result<()> {
    for p in TRUTHS {
        let inverse = p.not();
        let error = p.is_error();
        let undef = p.is_fault(Fault::Undef);
        let missing = p.is_fault(Fault::MissElt);
        print!(rt; "boolean {p}: {inverse} {error} {undef} {missing} and")?;
        with_each_truth(rt, |q| p.and(q))?;
        print!(rt; " or")?;
        with_each_truth(rt, |q| p.or(q))?;
        println!(rt; "")?;
    }
    Ok(())
}

fn with_each_truth<F: Fn(Boolean) -> Boolean>(rt: &HostRuntime, operation: F) -> io::Result<()>
    requires { F.IsAlwaysCallable operation }
{
    for q in TRUTHS {
        print!(rt; " {}", operation(q))?;
    }
    Ok(())
}

// What lies outside the range is judged, and the number that 32 bits have besides is none.
fn judged(rt: &HostRuntime) -> io::Result<()> {
    for value in [
        -9223372036854775808,
        -2147483648,
        -2147483647,
        0,
        2147483647,
        2147483648,
        9223372036854775807,
    ] {
        let integer = Integer::judge(value);
        println!(rt; "judge {value}: {integer}")?;
    }
    for code in 0..8u8 {
        match Fault::try_from(code) {
            Ok(fault) => println!(rt; "code {code}: {fault} {}", u8::from(fault))?,
            Err(_) => println!(rt; "code {code}: none")?,
        }
    }
    Ok(())
}

fn main(rt: HostRuntime) -> io::Result<()> {
    let operands = OPERANDS.map(integer);
    table(&rt, &operands, "+", plus)?;
    table(&rt, &operands, "-", minus)?;
    table(&rt, &operands, "*", times)?;
    table(&rt, &operands, "/", divide)?;
    table(&rt, &operands, "mod", modulo)?;
    // By its name alone a function of an inner module of another crate gets no proof here.
    table(&rt, &operands, "max", |j, k| max(j, k))?;
    table(&rt, &operands, "min", |j, k| min(j, k))?;
    table(&rt, &operands, "=", |j, k| equal(j, k))?;
    table(&rt, &operands, "~=", |j, k| unequal(j, k))?;
    table(&rt, &operands, "<", |j, k| less(j, k))?;
    table(&rt, &operands, "<=", |j, k| at_most(j, k))?;
    table(&rt, &operands, ">", |j, k| greater(j, k))?;
    table(&rt, &operands, ">=", |j, k| at_least(j, k))?;
    singles(&rt, &operands)?;
    truths(&rt)?;
    judged(&rt)
}
