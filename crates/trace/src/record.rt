// A line read along its form.
ghost use Rattle.std.specs.Prelude.{◌≡◌};
ghost use Rattle.trace.specs.Records.{with_value, with_taken, record_of};

use crate::form::Parts;
use crate::taken::{Taken, part_taken};

// The most values that a record has.
pub const MOST_VALUES: usize = 16;

// What was read of a line: its values in order, zeros after them, and how many they are. An array with a count, as document 01
// has others.
#[derive(Clone, Copy, Debug, PartialEq, Eq)]
pub struct Record {
    pub values: [u64; MOST_VALUES],
    pub count: usize,
}

// The place at which a line departs from its form.
#[derive(Clone, Copy, Debug, PartialEq, Eq)]
pub struct Misfit {
    pub column: usize,
}

impl Record {
    // With one value more, where there is room.
    fn with_value(self, value: u64) -> Option<Record>
        ensures { result ≡ with_value value self }
    {
        if self.count < MOST_VALUES {
            let mut values = self.values;
            values[self.count] = value;
            Some(Record {
                values,
                count: self.count + 1,
            })
        } else {
            None
        }
    }

    // With the values of what was taken at a place, where there is room.
    fn with_taken(self, place: usize, what: Taken) -> Option<Record>
        ensures { result ≡ with_taken place what self }
    {
        match what {
            Taken::Letter => Some(self),
            Taken::Value(number) => self.with_value(number.value),
            Taken::Octets(count) => self.with_value(place as u64)?.with_value(u64::from(count)),
        }
    }
}

// What a line holds, by its form. The values are in the form's order; octets (%x) give two, the place of their first digit
// and how many they are, and octet_at reads them.
pub fn read_record(line: &[u8], form: &[u8]) -> Result<Record, Misfit>
    ensures { result ≡ record_of form.now line.now }
{
    let mut read = Record {
        values: [0; MOST_VALUES],
        count: 0,
    };
    let mut at = 0;
    for part in Parts(form) {
        let what = match part_taken(part, &line[at..]) {
            Ok(what) => what,
            Err(len) => return Err(Misfit { column: at + len }),
        };
        read = read.with_taken(at, what).ok_or(Misfit { column: at })?;
        at += what.len();
    }
    if at < line.len() {
        return Err(Misfit { column: at });
    }
    Ok(read)
}
