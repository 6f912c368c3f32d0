use crate::problem::Problem;
use numbers::{Boolean, Integer};
use std::alloc::Global;
use std::fmt;
use std::fmt::Display;
use value_reader::{Kind, Scalar};

// A value nests at most as deep as there are types.
const DEEPEST: u8 = 64;

// A value as VAL writes it, from bytes that read as one.
pub fn show_value(heap: Global, bytes: &[u8]) -> Result<String, Problem> {
    Ok(Shown(bytes).to_string(heap)?)
}

// Bytes that read as a value, to be written as VAL writes it.
#[derive(Clone, Copy)]
struct Shown<'a>(&'a [u8]);

impl Display for Shown<'_> {
    fn fmt<W: fmt::Write>(&self, f: &mut fmt::Formatter<W>) -> fmt::Result {
        let mut printer = Printer { rest: self.0, f };
        printer.value(DEEPEST)
    }
}

// The bytes that are not written yet, and where they are written. The text ends at bytes that are no value.
#[derive(Drop)]
struct Printer<'a, 'f, W: fmt::Write> {
    rest: &'a [u8],
    f: &'f mut fmt::Formatter<W>,
}

impl<'a, W: fmt::Write> Printer<'a, '_, W> {
    // Takes the first N bytes; where there are fewer, none are left.
    fn take<const N: usize>(&mut self) -> Option<&'a [u8; N]> {
        let Some((front, rest)) = self.rest.split_first_chunk() else {
            self.rest = &[];
            return None;
        };
        self.rest = rest;
        Some(front)
    }

    // Writes the value at the front, which nests at most so deep.
    #[cycle(shown_values)]
    fn value(&mut self, depth: u8) -> fmt::Result {
        let (Some(inner), Some(&first)) = (depth.checked_sub(1), self.rest.first()) else {
            self.rest = &[];
            return Ok(());
        };
        match Kind::try_from(first) {
            Ok(Kind::Boolean) => self.scalar::<Boolean>(Kind::Boolean),
            Ok(Kind::Integer) => self.scalar::<Integer>(Kind::Integer),
            Ok(Kind::Error) => self.scalar::<Integer>(Kind::Error),
            Ok(Kind::Array) => self.array(inner),
            Ok(Kind::Record) => self.record(inner),
            Ok(Kind::Union) => self.union(inner),
            Err(_) => {
                self.rest = &[];
                Ok(())
            }
        }
    }

    fn scalar<S: Scalar + Display>(&mut self, kind: Kind) -> fmt::Result {
        if let Some(scalar) = S::read(self.rest, 0) {
            write!(self.f, "{scalar}")?;
        }
        self.rest = self.rest.get(kind.head_size()..).unwrap_or(&[]);
        Ok(())
    }

    // Parts are counted, not indexed: each begins where the last one ended. So are those of a record, whose places are
    // written with them; the two stay apart, since heads and separators differ.
    #[cycle(shown_values)]
    fn array(&mut self, depth: u8) -> fmt::Result {
        let Some(&[_, a, b, c, d, e, f]) = self.take::<7>() else {
            return Ok(());
        };
        write!(self.f, "[{}:", i32::from_be_bytes([a, b, c, d]))?;
        for i in 0..u16::from_be_bytes([e, f]) {
            self.f.write_str(if i == 0 { " " } else { ", " })?;
            self.value(depth)?;
        }
        self.f.write_str("]")
    }

    #[cycle(shown_values)]
    fn record(&mut self, depth: u8) -> fmt::Result {
        let Some(&[_, count]) = self.take::<2>() else {
            return Ok(());
        };
        self.f.write_str("record [")?;
        for i in 0..count {
            write!(self.f, "{}{i}: ", if i == 0 { "" } else { ", " })?;
            self.value(depth)?;
        }
        self.f.write_str("]")
    }

    #[cycle(shown_values)]
    fn union(&mut self, depth: u8) -> fmt::Result {
        let Some(&[_, tag]) = self.take::<2>() else {
            return Ok(());
        };
        write!(self.f, "union [{tag}: ")?;
        self.value(depth)?;
        self.f.write_str("]")
    }
}
