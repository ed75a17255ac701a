// When an ACK taken at 0 is renewed, rebound and over, in ms, by its options 51 (L), 58 (T1) and 59 (T2) in s.
use crate::shown::Times;
use crate::taken::taken_at;
use clock::{Duration, Instant};
use made::{PLAIN, ack};
use octets::span::put_option_at;
use settings::Settings;
use std::{fmt, io};

pub fn examples(rt: &impl Print) -> io::Result<()> {
    given_both(rt)?;
    given_one(rt)?;
    given_wrong(rt)?;
    given_zero(rt)?;
    clamped(rt)?;
    lengths(rt)?;
    maxima(rt)?;
    small_maxima(rt)?;
    wrapped(rt)
}

// The times of an ACK with these options, taken at a moment.
fn times(settings: Settings, options: &[u8], moment: Instant) -> Times {
    let client = taken_at(moment, settings, &ack(options));
    Times(client.session.state)
}

// L, T1 and T2 in s, and the longest lease that the client allows in ms: each where it is given.
#[derive(Clone, Copy)]
struct Given {
    maximum: Option<u32>,
    lease: Option<u32>,
    renew: Option<u32>,
    rebind: Option<u32>,
}

impl Given {
    fn settings(self) -> Settings {
        match self.maximum {
            None => PLAIN,
            Some(millis) => Settings {
                capped: true,
                maximum: Duration { millis },
                ..PLAIN
            },
        }
    }

    // Each option in a place of its own.
    fn options(self) -> [u8; 18] {
        let mut options = [0u8; 18];
        for (at, kind, given) in [
            (0, 51, self.lease),
            (6, 58, self.renew),
            (12, 59, self.rebind),
        ] {
            if let Some(seconds) = given {
                put_option_at(&mut options, at, kind, &seconds.to_be_bytes());
            }
        }
        options
    }

    fn times(self) -> Times {
        times(self.settings(), &self.options(), Instant::ZERO)
    }
}

impl fmt::Display for Given {
    fn fmt<W: fmt::Write>(&self, f: &mut fmt::Formatter<W>) -> fmt::Result {
        if let Some(millis) = self.maximum {
            write!(f, "maximum {}, ", Grouped(millis))?;
        }
        match self.lease {
            Some(seconds) => write!(f, "L {}", Grouped(seconds))?,
            None => f.write_str("no L")?,
        }
        if let Some(seconds) = self.renew {
            write!(f, ", T1 {}", Grouped(seconds))?;
        }
        if let Some(seconds) = self.rebind {
            write!(f, ", T2 {}", Grouped(seconds))?;
        }
        Ok(())
    }
}

// A number with a comma before every three digits.
#[derive(Clone, Copy)]
struct Grouped(u32);

impl fmt::Display for Grouped {
    fn fmt<W: fmt::Write>(&self, f: &mut fmt::Formatter<W>) -> fmt::Result {
        let ones = self.0 % 1000;
        let thousands = self.0 / 1000 % 1000;
        let millions = self.0 / 1000000 % 1000;
        match self.0 {
            0..1000 => write!(f, "{ones}"),
            1000..1000000 => write!(f, "{thousands},{ones:03}"),
            1000000..1000000000 => write!(f, "{millions},{thousands:03},{ones:03}"),
            _ => write!(
                f,
                "{},{millions:03},{thousands:03},{ones:03}",
                self.0 / 1000000000
            ),
        }
    }
}

// A row of the paper's table. Its times stay three, so that a call reads like the row.
fn row(
    rt: &impl Print,
    lease: Option<u32>,
    renew: Option<u32>,
    rebind: Option<u32>,
) -> io::Result<()> {
    capped(rt, None, lease, renew, rebind)
}

fn capped(
    rt: &impl Print,
    maximum: Option<u32>,
    lease: Option<u32>,
    renew: Option<u32>,
    rebind: Option<u32>,
) -> io::Result<()> {
    let given = Given {
        maximum,
        lease,
        renew,
        rebind,
    };
    let times = given.times();
    println!(rt; "{given}: {times}")
}

// The first row: T1 < T2 < L.
fn given_both(rt: &impl Print) -> io::Result<()> {
    row(rt, Some(3600), Some(900), Some(1800))?;
    row(rt, Some(3600), Some(3598), Some(3599))?;
    row(rt, None, Some(50), Some(100))
}

// The second row, T1 + (L - T1)/4 x 3, and the third, smaller of L/2 and T2.
fn given_one(rt: &impl Print) -> io::Result<()> {
    row(rt, Some(3600), Some(900), None)?;
    row(rt, Some(3600), Some(3599), None)?;
    row(rt, None, Some(100), None)?;
    row(rt, Some(3600), None, Some(1000))?;
    row(rt, Some(3600), None, Some(3000))
}

// The last row, L/2 and L/8 x 7: none given, or not in order.
fn given_wrong(rt: &impl Print) -> io::Result<()> {
    row(rt, None, None, None)?;
    row(rt, Some(3600), None, None)?;
    row(rt, Some(3600), Some(900), Some(900))?;
    row(rt, Some(3600), Some(1000), Some(900))?;
    row(rt, Some(3600), Some(900), Some(3600))?;
    row(rt, Some(3600), Some(3600), None)?;
    row(rt, Some(3600), None, Some(3600))
}

fn given_zero(rt: &impl Print) -> io::Result<()> {
    row(rt, Some(0), None, None)?;
    row(rt, Some(0), Some(0), None)?;
    row(rt, Some(3600), Some(0), None)?;
    row(rt, Some(3600), None, Some(0))?;
    row(rt, Some(3600), Some(0), Some(1))
}

// "1,073,741 s gives 1,073,741,000 ms, 1,073,742 s the maximum"; L, T1 and T2 are compared after the clamp.
fn clamped(rt: &impl Print) -> io::Result<()> {
    row(rt, Some(1073741), None, None)?;
    row(rt, Some(1073742), None, None)?;
    row(rt, Some(4294967295), None, None)?;
    row(rt, Some(4000000), Some(1000000), Some(1200000))?;
    row(rt, Some(4000000), Some(1000000), Some(1070000))?;
    row(rt, Some(4000000), Some(2000000), None)
}

// "needs exactly 4, so option 51 with 5 bytes counts as absent"; of two the first counts. 14 x 256 + 16 is 3,600, 3 x 256 + 132
// is 900, 3 x 256 + 232 is 1,000.
fn lengths(rt: &impl Print) -> io::Result<()> {
    let rows: [(&str, &[u8]); 5] = [
        ("L of 5 octets", &[51, 5, 0, 0, 14, 16, 0]),
        (
            "L of 5 octets, then L 3,600",
            &[51, 5, 0, 0, 14, 16, 0, 51, 4, 0, 0, 14, 16],
        ),
        (
            "L 3,600, then L 900",
            &[51, 4, 0, 0, 14, 16, 51, 4, 0, 0, 3, 132],
        ),
        (
            "L 3,600, T1 of 5 octets, T2 1,000",
            &[
                51, 4, 0, 0, 14, 16, 58, 5, 0, 0, 3, 132, 0, 59, 4, 0, 0, 3, 232,
            ],
        ),
        (
            "L 3,600, T1 900, T2 of 3 octets",
            &[51, 4, 0, 0, 14, 16, 58, 4, 0, 0, 3, 132, 59, 3, 0, 3, 232],
        ),
    ];
    for (asked, options) in rows {
        let times = times(PLAIN, options, Instant::ZERO);
        println!(rt; "{asked}: {times}")?;
    }
    Ok(())
}

// "then at most the configured maximum"
fn maxima(rt: &impl Print) -> io::Result<()> {
    capped(rt, Some(100000), None, None, None)?;
    capped(rt, Some(100000), Some(3600), Some(60), Some(100))?;
    capped(rt, Some(100000), Some(3600), Some(60), Some(90))?;
    capped(rt, Some(200001), Some(3600), None, None)?;
    capped(rt, Some(200001), None, None, None)?;
    capped(rt, Some(1073741824), Some(4294967295), None, None)
}

// "when the maximum is absent or at least 8 ms; a maximum of 2 ... gives renew 1, rebind 0"
fn small_maxima(rt: &impl Print) -> io::Result<()> {
    let given = Given {
        maximum: Some(1003),
        lease: None,
        renew: Some(1),
        rebind: None,
    };
    println!(rt; "maximum 1,003, T1 1: {}", given.times())?;
    capped(rt, Some(8), None, None, None)?;
    capped(rt, Some(7), None, None, None)?;
    capped(rt, Some(2), None, None, None)?;
    capped(rt, Some(0), None, None, None)
}

// "A moment plus a wait wraps at 2^32"
fn wrapped(rt: &impl Print) -> io::Result<()> {
    for millis in [4294967295, 4294862296] {
        let times = times(PLAIN, &[], Instant { millis });
        println!(rt; "no L, at {}: {times}", Grouped(millis))?;
    }
    Ok(())
}
