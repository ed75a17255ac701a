// A record read by its form.
use crate::form::Form;
use octets::span::up_to;
use std::error::Error;
use std::fmt;
use trace::{MOST_VALUES, Misfit, octet_at, read_record};

// A line has at most so many characters.
const LONGEST_LINE: usize = 140000;

// Why a line is no record of a list of calls.
#[derive(Clone, Copy, Debug, PartialEq, Eq)]
pub enum Malformed {
    TooLong,
    Unknown,
    // Where it departs from its form.
    Misfit(Misfit),
    // A fifth entry of a table, or a hardware address of another length.
    NoRoom,
}

impl fmt::Display for Malformed {
    fn fmt<W: fmt::Write>(&self, f: &mut fmt::Formatter<W>) -> fmt::Result {
        match self {
            Malformed::TooLong => write!(f, "longer than {LONGEST_LINE} characters"),
            Malformed::Unknown => write!(f, "no record begins so at column 1"),
            // Columns are counted from 1.
            Malformed::Misfit(misfit) => {
                let column = misfit.column.saturating_add(1);
                write!(f, "not as its form has it at column {column}")
            }
            Malformed::NoRoom => write!(f, "a table has 4 places, a hardware address 6 octets"),
        }
    }
}

impl Error for Malformed {}

impl From<Misfit> for Malformed {
    fn from(misfit: Misfit) -> Malformed {
        Malformed::Misfit(misfit)
    }
}

// A number of a record. Its form lets none through that does not fit where it is wanted.
#[derive(Clone, Copy, Debug, PartialEq, Eq)]
pub struct Value(u64);

impl Value {
    // As the type that is wanted; 0 would stand for one that does not fit.
    pub fn to<N: TryFrom<u64, Error: Drop> + Default>(self) -> N {
        N::try_from(self.0).unwrap_or_default()
    }

    pub fn is_yes(self) -> bool {
        self.0 == 1
    }
}

// The octets of a record, two digits each.
#[derive(Clone, Copy, Debug)]
pub struct Octets<'a> {
    digits: &'a [u8],
}

impl<'a> Octets<'a> {
    pub fn none() -> Octets<'a> {
        Octets { digits: &[] }
    }

    pub fn len(self) -> usize {
        self.digits.len() / 2
    }

    // Writes those that there is room for at the start of `out`; how many.
    pub fn copy_to(self, out: &mut [u8]) -> usize {
        for (place, pair) in out.iter_mut().zip(self.digits.chunks_exact(2)) {
            *place = octet_at(pair, 0).unwrap_or(0);
        }
        self.len().min(out.len())
    }

    // Those that there is room for, and zeros behind them.
    pub fn to_array<const N: usize>(self) -> [u8; N] {
        let mut octets = [0; N];
        self.copy_to(&mut octets);
        octets
    }
}

// A line that fits its form, and its values in the form's order; octets have two.
#[derive(Clone, Copy, Debug)]
pub struct Record<'a> {
    pub form: Form,
    line: &'a [u8],
    pub values: [Value; MOST_VALUES],
}

impl<'a> Record<'a> {
    // Reads a line; none where it is empty or a comment.
    pub fn read(line: &'a [u8]) -> Result<Option<Record<'a>>, Malformed> {
        if LONGEST_LINE < line.len() {
            return Err(Malformed::TooLong);
        }
        if let [] | [b'#', ..] = line {
            return Ok(None);
        }
        let form = Form::of(line).ok_or(Malformed::Unknown)?;
        let values = read_record(line, form.text())?.values.map(Value);
        Ok(Some(Record { form, line, values }))
    }

    // The octets that two of its values name.
    pub fn octets(&self, place: Value, count: Value) -> Octets<'a> {
        let digits = self.line.get(place.to()..).unwrap_or(&[]);
        Octets {
            digits: up_to(digits, 2 * usize::from(count.to::<u16>())),
        }
    }
}
