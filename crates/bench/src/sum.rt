// The digest of a case: two running sums over what its calls answer and leave.
use client::{Client, PollAnswer};
use machine::ClientState;
use octets::word::read_u16;
use reasons::Refusal;
use std::fmt;
use tables::Tables;

#[derive(Clone, Copy)]
pub struct Sum {
    a: u32,
    b: u32,
    // The number of the last refusal, 0 after any other answer. It is no Option: the digest takes it as a word, here and in the Rust.
    number: u32,
}

impl Sum {
    pub fn new() -> Sum {
        Sum {
            a: 1,
            b: 0,
            number: 0,
        }
    }

    // A poll's answer.
    pub fn polled(self, outcome: Result<PollAnswer, Refusal>) -> Sum {
        match outcome {
            Ok(answer) => self.answered(answer),
            Err(refusal) => self.numbered(refusal.into()),
        }
    }

    fn answered(self, answer: PollAnswer) -> Sum {
        let length = u32::try_from(answer.length).unwrap_or(u32::MAX);
        self.numbered(0)
            .with(answer.wake.millis.wrapping_add(length))
            .with(answer.source.wrapping_add(answer.destination))
            .with(u32::from(answer.purge))
    }

    // The checksum that stands in the lent buffer, if that has room for one.
    pub fn written(self, buf: &[u8]) -> Sum {
        match read_u16(buf, 6) {
            Some(n) => self.with(n),
            None => self,
        }
    }

    // What became of a reply or a reset: whether link state is to be purged.
    pub fn purged<E: Into<u32>>(self, outcome: Result<bool, E>) -> Sum {
        match outcome {
            Ok(purge) => self.numbered(0).with(u32::from(purge)),
            Err(error) => self.numbered(error.into()),
        }
    }

    // Creation, or a manual call.
    pub fn done(self, outcome: Result<(), Refusal>) -> Sum {
        match outcome {
            Ok(()) => self.numbered(0),
            Err(refusal) => self.numbered(refusal.into()),
        }
    }

    // What of a client and its tables a call can change.
    pub fn left(self, client: &Client, tables: &Tables) -> Sum {
        let session = client.session;
        let lease = client.lease;
        let used = (lease.options.len % 65536) as u32;
        let addresses = tables.ip_addrs.count % 256;
        let routes = tables.routes.count % 256;
        self.with(deadlines(session.state))
            .with(session.transaction_id.wrapping_add(lease.address))
            .with(used)
            .with(tables.config_generation)
            .with((addresses * 256 + routes) as u32)
    }

    pub fn with(self, word: u32) -> Sum {
        let a = self.a.wrapping_add(word);
        let b = self.b.wrapping_add(a);
        Sum { a, b, ..self }
    }

    fn numbered(self, number: u32) -> Sum {
        Sum { number, ..self }.with(number)
    }
}

impl fmt::Display for Sum {
    fn fmt<W: fmt::Write>(&self, f: &mut fmt::Formatter<W>) -> fmt::Result {
        let Sum { a, b, number } = *self;
        write!(f, "  number {number}, digest {a:08x}{b:08x}")
    }
}

// The moments of a state, as one number.
fn deadlines(state: ClientState) -> u32 {
    match state {
        ClientState::Init => 0,
        ClientState::Discovering(s) => s.retry_at.millis,
        ClientState::Requesting(s) => s.tries.retry_at.millis.wrapping_add(s.requested_ip),
        ClientState::Renewing(s) => s
            .renew_at
            .millis
            .wrapping_add(s.rebind_at.millis)
            .wrapping_add(s.expires_at.millis),
    }
}
