// Answers as text, in the independent program's words.
ghost use Rattle.model.specs.Answers.{NanCases};

use model::{ArrayValue, DataSize, ParentPair, Rejection, Section, Validation};
use std::fmt::Display;
use std::io::Print;
use std::{fmt, io};

// `refuse`, the rule and the node, and of 45 the element; `entry` and its place where there is one.
#[derive(Clone, Copy)]
struct Refusal(Rejection);

impl Display for Refusal {
    fn fmt<W: fmt::Write>(&self, f: &mut fmt::Formatter<W>) -> fmt::Result {
        let r = self.0;
        write!(f, "refuse {} {}", r.rule, r.node)?;
        if r.rule == 45 {
            write!(f, " {}", r.element)?;
        }
        if 0 < r.entry {
            write!(f, " entry {}", r.entry)?;
        }
        Ok(())
    }
}

// The four counts of an acceptance.
#[derive(Clone, Copy)]
pub struct Counts(pub Validation);

impl Display for Counts {
    fn fmt<W: fmt::Write>(&self, f: &mut fmt::Formatter<W>) -> fmt::Result {
        let v = self.0;
        write!(
            f,
            "{} {} {} {}",
            v.validated, v.skipped, v.zones, v.sections
        )
    }
}

// The number of directions, and as many sizes.
#[derive(Clone, Copy)]
pub struct Sizes(pub DataSize);

impl Display for Sizes {
    fn fmt<W: fmt::Write>(&self, f: &mut fmt::Formatter<W>) -> fmt::Result {
        let d = self.0;
        write!(f, "{} {}", d.directions, d.i)?;
        if 1 < d.directions {
            write!(f, " {}", d.j)?;
        }
        if 2 < d.directions {
            write!(f, " {}", d.k)?;
        }
        Ok(())
    }
}

// The two parents of a face.
#[derive(Clone, Copy)]
pub struct Parents(pub ParentPair);

impl Display for Parents {
    fn fmt<W: fmt::Write>(&self, f: &mut fmt::Formatter<W>) -> fmt::Result {
        let p = self.0;
        write!(f, "{} {}", p.first, p.second)
    }
}

// The eleven numbers of an entry.
#[derive(Clone, Copy)]
pub struct Entry(pub Section);

impl Display for Entry {
    fn fmt<W: fmt::Write>(&self, f: &mut fmt::Formatter<W>) -> fmt::Result {
        let s = self.0;
        write!(f, "{} {} {} {}", s.node, s.element_type, s.first, s.last)?;
        write!(f, " {} {}", s.offsets_at, s.offsets_width)?;
        write!(f, " {} {}", s.connectivity_at, s.connectivity_width)?;
        write!(
            f,
            " {} {} {}",
            s.connectivity_length, s.parents_at, s.parents_width
        )
    }
}

// A word and what the call answers, or the refusal.
pub fn answer<P: Print, T: Display + Drop>(
    to: &P,
    word: &str,
    answer: Result<T, Rejection>,
) -> io::Result<()> {
    match answer {
        Ok(x) => print!(to; "{word} {x}"),
        Err(r) => to.print(Refusal(r)),
    }
}

// A stored value, of a real number its bits.
pub fn value<P: Print>(to: &P, v: Result<ArrayValue, Rejection>) -> io::Result<()>
    requires { NanCases v }
{
    match v {
        Ok(ArrayValue::Whole(n)) => print!(to; "whole {n}"),
        Ok(ArrayValue::Single(x)) => print!(to; "single {}", x.to_bits()),
        Ok(ArrayValue::Double(x)) => print!(to; "double {}", x.to_bits()),
        Ok(ArrayValue::SingleNan(b)) => print!(to; "single {b}"),
        Ok(ArrayValue::DoubleNan(b)) => print!(to; "double {b}"),
        Err(r) => to.print(Refusal(r)),
    }
}

// The places of lent memory, after a word.
pub fn list<P: Print, T: Display>(to: &P, word: &str, places: &[T]) -> io::Result<()> {
    print!(to; " {word}")?;
    for x in places {
        print!(to; " {x}")?;
    }
    Ok(())
}
