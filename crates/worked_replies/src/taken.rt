// What a reply does to a client and its tables.
use client::{Client, NotTaken};
use clock::Instant;
use made::Refused;
use std::fmt;
use tables::Tables;

// What became of a reply, and whether client and tables came back as they were.
#[derive(Clone, Copy)]
pub struct Taken {
    outcome: Result<bool, NotTaken>,
    kept: bool,
}

impl Taken {
    // A reply at 7 ms, to a client with one address put in by hand, 10.0.0.7/24.
    pub fn of(client: Client, source: u32, reply: &[u8]) -> Taken {
        let tables = Tables::new().add_address(0x0a000007, 24).tables;
        let told = client.process(tables, source, reply, Instant { millis: 7 });
        Taken {
            outcome: told.outcome,
            kept: told.client == client && told.tables == tables,
        }
    }
}

impl fmt::Display for Taken {
    fn fmt<W: fmt::Write>(&self, f: &mut fmt::Formatter<W>) -> fmt::Result {
        match self.outcome {
            Ok(_) => f.write_str("taken")?,
            Err(NotTaken::PassedOver(reason)) => write!(f, "passed over by {}", u32::from(reason))?,
            Err(NotTaken::Refused(refusal)) => write!(f, "{}", Refused(refusal))?,
        }
        f.write_str(if self.kept {
            ", nothing changed"
        } else {
            ", changed"
        })
    }
}
