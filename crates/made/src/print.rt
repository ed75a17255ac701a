// Lines of the examples, and what is printed where there may be nothing, or a refusal. Here and in the programs rt and what was
// asked stay two: rt is what main was given, and each line asks something else.
use crate::shown::YesNo;
use reasons::Refusal;
use std::fmt::Display;
use std::{fmt, io};

// A line: what was asked, and what came.
pub fn line<T: Display + Drop>(rt: &impl Print, asked: &str, came: T) -> io::Result<()> {
    println!(rt; "{asked}: {came}")
}

// A line: what was asked, and yes or no.
pub fn test(rt: &impl Print, asked: &str, holds: bool) -> io::Result<()> {
    line(rt, asked, YesNo(holds))
}

// A line: what was asked, and what came, if anything did.
pub fn found<T: Display + Copy>(rt: &impl Print, asked: &str, came: Option<T>) -> io::Result<()> {
    line(rt, asked, Maybe(came))
}

// A line: what was asked, and the answer, or the number of the refusal.
pub fn answered<T: Display + Drop>(
    rt: &impl Print,
    asked: &str,
    answer: Result<T, Refusal>,
) -> io::Result<()> {
    match answer {
        Ok(came) => line(rt, asked, came),
        Err(refusal) => line(rt, asked, Refused(refusal)),
    }
}

// What there may be.
#[derive(Clone, Copy)]
pub struct Maybe<T>(pub Option<T>);

impl<T: Display> Display for Maybe<T> {
    fn fmt<W: fmt::Write>(&self, f: &mut fmt::Formatter<W>) -> fmt::Result {
        match &self.0 {
            Some(came) => write!(f, "{came}"),
            None => f.write_str("none"),
        }
    }
}

// Why a call is refused, or a reply is not taken: its number.
#[derive(Clone, Copy)]
pub struct Refused<E>(pub E);

impl<E: Copy> Display for Refused<E>
where
    u32: From<E>,
{
    fn fmt<W: fmt::Write>(&self, f: &mut fmt::Formatter<W>) -> fmt::Result {
        write!(f, "refused by {}", u32::from(self.0))
    }
}
